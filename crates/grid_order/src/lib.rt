// From a grid to its cells with an order. A grid's own words are an order of its cells where no two of them sort to one cell; the order is handed out where, besides,
// the words of two cells list every shared facet in one sequence.
// Follows `FlatQuotient::triangulate_ordered` (crates/regge/src/mesher/quotient.rs).
//
// What the working lists hold, one phase after the other; the keys' last part begins where the facet rows end:
//   keys, first part   sorted words                      -                         facet rows
//   keys, last part    -                                 words by cell, cells      the same
//   rows               the vertex of each point, cells   the grid's words          cells, mates
//   spare              first rows                        first rows                first rows
//   counts             buckets                           the vertex of each point  classes
#![tactic(auto)]

ghost use Rattle.std.specs.Prelude.{◌≡◌};
ghost use Rattle.refusal.specs.Says.{fine};
ghost use Rattle.lists.specs.Zero.{AllZero};
ghost use Rattle.quotient.specs.Shape.{check_of};
ghost use Rattle.grid_order.specs.Promise.{order_room, TriangulateOrdered};
ghost use Rattle.grid_order.specs.Work.{Laying, Laid, Decided, Handing, HandedOut, Working, Worked};
ghost use Rattle.ordering.specs.WorkAgree.{Agreeing};

use quotient::Grid;
use refusal::{Refusal, Room};

// What `triangulate_ordered` says: how many cells there are, and whether an order is handed out with them.
#[derive(Clone, Copy, Debug, PartialEq, Eq)]
pub enum Triangulated {
    Ordered(u32),
    Unordered(u32),
}

// Writes the words by cell to `list`, and behind them the cells. The cells stay in `rows`; the vertex of each point goes to `table`.
fn lay_out(
    grid: Grid,
    m: usize,
    list: &mut [u32],
    rows: &mut [u32],
    spare: &[u32],
    table: &mut [u32],
)
    requires { Laying grid m list.old rows.old spare.now table.old }
    ensures { Laid grid m rows.old spare.now list.new rows.new }
{
    let n = grid.d as usize + 1;
    let size = m * n;
    let end = size + size;
    lists::copy(&rows[..size], &mut list[size..end]);
    grid_words::write_words(grid, rows, table);
    sorting::gather(rows, n, spare, m, list);
    lists::copy(&list[size..end], &mut rows[..size]);
}

// Whether the words are an order that agrees on every facet of two cells: as many cells as words, and no clash by the table of mates.
fn decide(d: usize, m: usize, count: usize, mates: &[u32], list: &[u32]) -> bool
    requires { Agreeing d m mates.now list.now }
    ensures { Decided d m count mates.now list.now result }
{
    if m != count {
        return false;
    }
    ordering::agreement::agree(d, m, mates, list)
}

// The results: the cells stand behind the words by cell in `list`.
fn hand_out(
    size: usize,
    m: usize,
    ordered: bool,
    list: &[u32],
    cells: &mut [u32],
    order: &mut [u32],
) -> Result<Triangulated, Refusal>
    requires { Handing size m list.now }
    ensures { HandedOut size m list.now ordered result cells.old cells.new order.old order.new }
{
    if cells.len() < size {
        return Err(Refusal::TooShort);
    }
    let end = size + size;
    if !ordered {
        lists::copy(&list[size..end], &mut cells[..size]);
        return Ok(Triangulated::Unordered(m as u32));
    }
    if order.len() < size {
        return Err(Refusal::TooShort);
    }
    lists::copy(&list[size..end], &mut cells[..size]);
    lists::copy(&list[..size], &mut order[..size]);
    Ok(Triangulated::Ordered(m as u32))
}

// The work of `triangulate_ordered`, in working lists of just the sizes that are needed.
fn work(
    grid: Grid,
    at: usize,
    cells: &mut [u32],
    order: &mut [u32],
    keys: &mut [u32],
    rows: &mut [u32],
    spare: &mut [u32],
    counts: &mut [u32],
) -> Result<Triangulated, Refusal>
    requires { Working grid at keys.old rows.old spare.old counts.old }
    ensures { Worked grid result cells.old cells.new order.old order.new }
{
    let d = grid.d as usize;
    let m = grid_mesh::cells(grid, keys, rows, spare, counts);
    lay_out(grid, m, &mut keys[at..], rows, spare, counts);
    let count = grid_words::cells(grid);
    if !complex_mates::mates(d, m, count * (d + 1), &mut keys[..at], rows, spare, counts) {
        return Err(Refusal::CrowdedFacet);
    }
    let ordered = decide(d, m, count, rows, &keys[at..]);
    hand_out(m * (d + 1), m, ordered, &keys[at..], cells, order)
}

// The work, and then the working lists are all zero.
fn cleared(
    grid: Grid,
    at: usize,
    cells: &mut [u32],
    order: &mut [u32],
    keys: &mut [u32],
    rows: &mut [u32],
    spare: &mut [u32],
    counts: &mut [u32],
) -> Result<Triangulated, Refusal>
    requires { Working grid at keys.old rows.old spare.old counts.old }
    ensures work { Worked grid result cells.old cells.new order.old order.new }
    ensures room { AllZero keys.old keys.new rows.old rows.new spare.old spare.new counts.old
        counts.new }
{
    let said = work(grid, at, cells, order, keys, rows, spare, counts);
    lists::clear_four(keys, rows, spare, counts);
    said
}

// What the call needs of its working lists.
fn need(grid: Grid) -> Room
    requires { check_of grid ≡ fine }
    ensures { result ≡ order_room grid }
{
    let d = grid.d as usize;
    let len = grid_words::cells(grid) * (d + 1);
    let base = complex::need(d, len);
    Room {
        keys: base.keys + len + len,
        rows: len,
        spare: len,
        counts: len,
    }
}

// The cells of the grid in colex order, and an order of them exactly where no two words sort to one cell and all facets agree: the words by cell. Refused: 1, 9, 8, 3,
// 6, then 12 where a working list is too short, then 7, 12 where a result list is too short. A refusal changes no result list; where no order is handed out its list
// needs no length and is not changed. From the room's test on what is needed of the working lists is zero at the end.
pub fn triangulate_ordered(
    grid: Grid,
    cells: &mut [u32],
    order: &mut [u32],
    keys: &mut [u32],
    rows: &mut [u32],
    spare: &mut [u32],
    counts: &mut [u32],
) -> Result<Triangulated, Refusal>
    ensures { TriangulateOrdered grid result cells.old cells.new order.old order.new keys.old keys.new
        rows.old rows.new spare.old spare.new counts.old counts.new }
{
    grid.check()?;
    let need = need(grid);
    let have = Room {
        keys: keys.len(),
        rows: rows.len(),
        spare: spare.len(),
        counts: counts.len(),
    };
    if !refusal::has_room(need, have) {
        return Err(Refusal::TooShort);
    }
    let k = need.keys;
    let r = need.rows;
    let s = need.spare;
    let c = need.counts;
    let at = k - r - r;
    cleared(
        grid,
        at,
        cells,
        order,
        &mut keys[..k],
        &mut rows[..r],
        &mut spare[..s],
        &mut counts[..c],
    )
}
