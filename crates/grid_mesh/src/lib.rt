// From a grid to cells: its words in the order of the sorted grid cells, and its cells with the order that the words give.
// Follows `FlatQuotient::cell_words` and `triangulate` (crates/regge/src/mesher/quotient.rs).
//
// What the working lists hold, one phase after the other; the first two, which find a facet in three cells, only where there can be one:
//   keys     sorted words                     facet rows   -
//   rows     the vertex of each point, cells  mates        the vertex of each point
//   spare    first rows                       first rows   -
//   counts   buckets                          classes      -
#![tactic(auto)]

ghost use Rattle.std.specs.Prelude.{◌≡◌};
ghost use Rattle.refusal.specs.Says.{fine};
ghost use Rattle.lists.specs.Zero.{AllZero};
ghost use Rattle.quotient.specs.Shape.{check_of};
ghost use Rattle.grid_mesh.specs.Words.{grid_need, CellWords};
ghost use Rattle.grid_mesh.specs.Work.{Finding, Found, tangled_by, tangled_at, is_tangled, IsCrowded, Working, Worked};

use quotient::{Grid, mask};
use refusal::{Refusal, Room};

// Whether axis a reflects axis b, and b reflects one itself.
fn tangled_by(grid: Grid, a: u32, b: u32) -> bool
    ensures { result ≡ tangled_by grid a b }
{
    let x = grid.axis(a);
    let y = grid.axis(b);
    let g = x.glue;
    let h = y.glue;
    if mask::member_of(g.mask(), b) {
        h.mask() != 0
    } else {
        false
    }
}

// Whether axis a reflects an axis that reflects one itself.
fn tangled_at(grid: Grid, a: u32) -> bool
    ensures { result ≡ tangled_at grid a }
{
    for b in 0..grid.d {
        if tangled_by(grid, a, b) {
            return true;
        }
    }
    false
}

// Whether some axis with a non-empty set is itself reflected: only there can a facet lie in three cells.
fn tangled(grid: Grid) -> bool
    ensures { result ≡ is_tangled grid }
{
    for a in 0..grid.d {
        if tangled_at(grid, a) {
            return true;
        }
    }
    false
}

// Writes the cells of the grid's words, one after the other, to `rows`, and to `spare` the number of each cell's first word. Says how many cells there are.
pub fn cells(
    grid: Grid,
    keys: &mut [u32],
    rows: &mut [u32],
    spare: &mut [u32],
    counts: &mut [u32],
) -> usize
    requires { Finding grid keys.old rows.old spare.old counts.old }
    ensures { Found grid result rows.new spare.new }
{
    let n = grid.d as usize + 1;
    let count = grid_words::cells(grid);
    let len = count * n;
    grid_words::write_words(grid, &mut keys[..len], rows);
    multiindex::word::sort_words(keys, n, count);
    sorting::sort_rows(keys, n, count, len, rows, spare, counts);
    let m = sorting::distinct(keys, n, count, rows, spare, counts);
    sorting::gather(keys, n, spare, m, rows);
    m
}

// Whether a facet lies in three or more cells. Nothing is sorted where none can.
fn crowded(
    grid: Grid,
    keys: &mut [u32],
    rows: &mut [u32],
    spare: &mut [u32],
    counts: &mut [u32],
) -> bool
    requires { Working grid keys.old rows.old spare.old counts.old }
    ensures { IsCrowded grid result }
{
    if !tangled(grid) {
        return false;
    }
    let d = grid.d as usize;
    let m = cells(grid, keys, rows, spare, counts);
    let len = grid_words::cells(grid) * (d + 1);
    !complex_mates::mates(d, m, len, keys, rows, spare, counts)
}

// The work of `cell_words`, in working lists of just the sizes that are needed.
fn work(
    grid: Grid,
    words: &mut [u32],
    keys: &mut [u32],
    rows: &mut [u32],
    spare: &mut [u32],
    counts: &mut [u32],
) -> Result<u32, Refusal>
    requires { Working grid keys.old rows.old spare.old counts.old }
    ensures { Worked grid result words.old words.new }
{
    if crowded(grid, keys, rows, spare, counts) {
        return Err(Refusal::CrowdedFacet);
    }
    let count = grid_words::cells(grid);
    let len = count * (grid.d as usize + 1);
    if words.len() < len {
        return Err(Refusal::TooShort);
    }
    grid_words::write_words(grid, &mut words[..len], rows);
    Ok(count as u32)
}

// The work, and then the working lists are all zero.
fn cleared(
    grid: Grid,
    words: &mut [u32],
    keys: &mut [u32],
    rows: &mut [u32],
    spare: &mut [u32],
    counts: &mut [u32],
) -> Result<u32, Refusal>
    requires { Working grid keys.old rows.old spare.old counts.old }
    ensures work { Worked grid result words.old words.new }
    ensures room { AllZero keys.old keys.new rows.old rows.new spare.old spare.new counts.old
        counts.new }
{
    let said = work(grid, words, keys, rows, spare, counts);
    lists::clear_four(keys, rows, spare, counts);
    said
}

// What a call on the words of the grid needs of its working lists.
fn need(grid: Grid) -> Room
    requires { check_of grid ≡ fine }
    ensures { result ≡ grid_need grid }
{
    let d = grid.d as usize;
    complex::need(d, grid_words::cells(grid) * (d + 1))
}

// The words of the grid's cells, in the order of the sorted grid cells. Refused: 1, 9, 8, 3, 6, then 12 where a working list is too short, then 7, 12 where the word
// list is too short. A refusal changes no word; from the room's test on what is needed of the working lists is zero at the end.
pub fn cell_words(
    grid: Grid,
    words: &mut [u32],
    keys: &mut [u32],
    rows: &mut [u32],
    spare: &mut [u32],
    counts: &mut [u32],
) -> Result<u32, Refusal>
    ensures { CellWords grid result words.old words.new keys.old keys.new rows.old rows.new spare.old
        spare.new counts.old counts.new }
{
    grid.check()?;
    let need = need(grid);
    let have = Room {
        keys: keys.len(),
        rows: rows.len(),
        spare: spare.len(),
        counts: counts.len(),
    };
    if !refusal::has_room(need, have) {
        return Err(Refusal::TooShort);
    }
    let k = need.keys;
    let r = need.rows;
    let s = need.spare;
    let c = need.counts;
    cleared(
        grid,
        words,
        &mut keys[..k],
        &mut rows[..r],
        &mut spare[..s],
        &mut counts[..c],
    )
}
