// How long the lists of the C functions on grids must be, as planner_needs tells it for those on cell lists: the corners of a grid's words take the place of a word list's
// length. With lists of these lengths the call never says 12 (proofs/Enough, proofs/EnoughChained). The port added it: the Rust has no lent lists.
#![tactic(auto)]

ghost use Rattle.std.specs.Prelude.{◌≡◌};
ghost use Rattle.planner_passing.specs.Said.{counted_code};
ghost use Rattle.planner_passing.specs.Given.{plain_given};
ghost use Rattle.needs.specs.Needs.{worked};
ghost use Rattle.planner_needs_grids.specs.Needs.{words_need, triangulated_need, lengths_need, map_need, classes_need, corners_said, chained_said};

use needs::{corners, key_room};
use planner_passing::{given, said};
use quotient::Grid;
use refusal::Refusal;

// How many corners the words of a grid have, or its refusal.
fn corners_of(grid: Grid) -> Result<u32, Refusal>
    ensures { result ≡ corners_said grid }
{
    grid.check()?;
    let n = grid_words::cells(grid) * (grid.d as usize + 1);
    Ok(n as u32)
}

// The same where the grid is glued honestly: 6 is asked of other classes, and later.
fn chained_corners_of(grid: Grid) -> Result<u32, Refusal>
    ensures { result ≡ chained_said grid }
{
    grid_chained::check::check(grid)?;
    let n = grid_chained::check::need(grid);
    Ok(n as u32)
}

// How many corners the words of a grid have: d + 1 for each of its cells. Refused: 1, 9, 8, 3, 6.
#[unsafe(no_mangle)]
pub extern "C" fn planner_grid_corners(d: u32, axes: &[u32]) -> u64
    ensures { result ≡ counted_code (corners_said (plain_given d axes.now)) }
{
    let g = given::plain(d, axes);
    said::counted(corners_of(g))
}

// The same for the calls of honest gluing. Refused: 1, 9, 8, 3.
#[unsafe(no_mangle)]
pub extern "C" fn planner_chained_corners(d: u32, axes: &[u32]) -> u64
    ensures { result ≡ counted_code (chained_said (plain_given d axes.now)) }
{
    let g = given::plain(d, axes);
    said::counted(chained_corners_of(g))
}

// planner_cell_words, planner_chained_cell_words: words, keys, rows, spare, counts.
#[unsafe(no_mangle)]
pub extern "C" fn planner_need_cell_words(d: u32, n: usize, need: &mut [usize; 5])
    ensures { need.new ≡ words_need d (worked d n) }
{
    let m = corners(d, n);
    let k = key_room(d, m);
    *need = [m, k, m, m, m];
}

// planner_triangulate_ordered: cells, order, keys, rows, spare, counts.
#[unsafe(no_mangle)]
pub extern "C" fn planner_need_triangulate_ordered(d: u32, n: usize, need: &mut [usize; 6])
    ensures { need.new ≡ triangulated_need d (worked d n) }
{
    let m = corners(d, n);
    let k = key_room(d, m);
    *need = [m, m, k + m + m, m, m, m];
}

// planner_edge_lengths_sq: lengths, keys, rows, spare, counts.
#[unsafe(no_mangle)]
pub extern "C" fn planner_need_edge_lengths_sq(d: u32, n: usize, need: &mut [usize; 5])
    ensures { need.new ≡ lengths_need d (worked d n) }
{
    let m = corners(d, n);
    let k = d as usize * m;
    *need = [k, k, k, k, k];
}

// planner_geojson: bytes, keys, rows, spare, counts.
#[unsafe(no_mangle)]
pub extern "C" fn planner_need_geojson(d: u32, n: usize, need: &mut [usize; 5])
    ensures { need.new ≡ map_need d (worked d n) }
{
    let m = corners(d, n);
    let k = key_room(d, m);
    *need = [43 + 276 * (m / (d as usize + 1)), k, m, m, m];
}

// planner_chained_classes, planner_chained_closed_classes: classes, room. The room is that of planner_chained_reduce and planner_chained_nvertices too.
#[unsafe(no_mangle)]
pub extern "C" fn planner_need_chained_classes(d: u32, n: usize, need: &mut [usize; 2])
    ensures { need.new ≡ classes_need d (worked d n) }
{
    let m = corners(d, n);
    *need = [m, m];
}
