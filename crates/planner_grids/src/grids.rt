// The calls on grids.
ghost use Rattle.std.specs.Prelude.{◌≡◌, length};
ghost use Rattle.refusal.specs.Lent.{onto};
ghost use Rattle.quotient.specs.Reduce.{reduce_of};
ghost use Rattle.quotient.specs.Shape.{parity_of, nvertices_of};
ghost use Rattle.quotient.specs.Makers.{torus_of, klein_of, quasi_of, band_of};
ghost use Rattle.grid_swath.specs.Swath.{swath_says, swath_hands};
ghost use Rattle.grid_mesh.specs.Words.{CellWords};
ghost use Rattle.grid_order.specs.Promise.{TriangulateOrdered};
ghost use Rattle.planner_passing.specs.Said.{Said, reduced_code, reduced_sets, parity_code, counted_code, made_code, made_axes, triangulated_code, answer_code};
ghost use Rattle.planner_passing.specs.Given.{plain_given, vertex_given, sides_given, glues_given};

use planner_passing::{given, said};
use quotient::{Grid, GridVertex};

// The glued number of grid point v, 4294967295 where v is past the last point. Refused: 1, 9, 8, 3, 6.
#[unsafe(no_mangle)]
pub extern "C" fn planner_reduce(d: u32, v: u32, axes: &[u32]) -> u64
    ensures { result ≡ reduced_code (reduce_of (plain_given d axes.now) (vertex_given v)) }
{
    let g = given::plain(d, axes);
    said::reduced(g.reduce(GridVertex(v)))
}

// The glued number of grid point v; the axes on which it was wrapped, and those that came out reversed, go to the list as masks. 4294967295 and two empty sets where v
// is past the last point. Refused: 1, 9, 8, 3, 6.
#[unsafe(no_mangle)]
pub extern "C" fn planner_crossing(d: u32, v: u32, axes: &[u32], sets: &mut [u32; 2]) -> u64
    ensures value { result ≡ reduced_code (reduce_of (plain_given d axes.now) (vertex_given v)) }
    ensures sets_after { sets.new ≡ reduced_sets (reduce_of (plain_given d axes.now) (vertex_given v)) sets.old }
{
    let g = given::plain(d, axes);
    said::crossed(g.reduce(GridVertex(v)), sets)
}

// One glued number for each grid point of the list, 4294967295 where it is past the last point. Refused: 1, 9, 8, 3, 6, 12.
#[unsafe(no_mangle)]
pub extern "C" fn planner_swath(d: u32, axes: &[u32], points: &[u32], glued: &mut [u32]) -> u64
    ensures value { result ≡ answer_code (λ (fine : Unit {0}). 0) (swath_says (plain_given d axes.now) points.now (length glued.old)) }
    ensures glued_after { glued.new ≡ onto (swath_hands (plain_given d axes.now) points.now (length glued.old)) glued.old }
{
    let g = given::plain(d, axes);
    said::answer(grid_swath::swath(g, points, glued))
}

// 1 where every axis reflects an even number of axes, else 0. Refused: 1, 9, 8, 3, 6.
#[unsafe(no_mangle)]
pub extern "C" fn planner_is_orientation_preserving(d: u32, axes: &[u32]) -> u64
    ensures { result ≡ parity_code (parity_of (plain_given d axes.now)) }
{
    let g = given::plain(d, axes);
    said::verdict(g.is_orientation_preserving())
}

// The number of vertices after gluing. Refused: 1, 9, 8, 3, 6.
#[unsafe(no_mangle)]
pub extern "C" fn planner_nvertices(d: u32, axes: &[u32]) -> u64
    ensures { result ≡ counted_code (nvertices_of (plain_given d axes.now)) }
{
    let g = given::plain(d, axes);
    said::counted(g.nvertices())
}

// The axes of a torus with n cells on every axis. Refused: 1, 10, 8, 3, 6.
#[unsafe(no_mangle)]
pub extern "C" fn planner_torus(d: u32, n: u32, sides: &[f64], axes: &mut [u32; 6]) -> u64
    ensures value { result ≡ made_code (torus_of d (sides_given sides.now) n) }
    ensures axes_after { axes.new ≡ made_axes (torus_of d (sides_given sides.now) n) axes.old }
{
    let s = given::sides(sides);
    said::made(Grid::torus(d, s, n), axes)
}

// The axes of a Klein bottle with n cells on both axes. Refused: 1 where d is not 2, 10, 8, 3, 6.
#[unsafe(no_mangle)]
pub extern "C" fn planner_klein(d: u32, n: u32, sides: &[f64], axes: &mut [u32; 6]) -> u64
    ensures value { result ≡ made_code (klein_of d (sides_given sides.now) n) }
    ensures axes_after { axes.new ≡ made_axes (klein_of d (sides_given sides.now) n) axes.old }
{
    let s = given::sides(sides);
    said::made(Grid::klein(d, s, n), axes)
}

// The axes of a Moebius band, with counts from its sides, n cells on the longest. Refused: 10, 3, 6.
#[unsafe(no_mangle)]
pub extern "C" fn planner_moebius(
    n: u32,
    circumference: f64,
    width: f64,
    axes: &mut [u32; 6],
) -> u64
    ensures value { result ≡ made_code (band_of circumference width n) }
    ensures axes_after { axes.new ≡ made_axes (band_of circumference width n) axes.old }
{
    said::made(Grid::moebius(circumference, width, n), axes)
}

// The axes of a grid with these gluings and counts from its sides, n cells on the longest. Refused: 1, 10, 9, 3, 6.
#[unsafe(no_mangle)]
pub extern "C" fn planner_quasi_uniform(
    d: u32,
    n: u32,
    gluings: &[u32],
    sides: &[f64],
    axes: &mut [u32; 6],
) -> u64
    ensures value { result ≡ made_code (quasi_of d (sides_given sides.now) (glues_given gluings.now) n) }
    ensures axes_after { axes.new ≡ made_axes (quasi_of d (sides_given sides.now) (glues_given gluings.now) n) axes.old }
{
    let g = given::glues(gluings);
    let s = given::sides(sides);
    said::made(Grid::quasi_uniform(d, s, g, n), axes)
}

// The words of the grid's cells, d+1 vertices each, in the order of the sorted grid cells: how many. Refused: 1, 9, 8, 3, 6, then 12 where a working list is too short,
// then 7, 12 where the word list is too short.
#[unsafe(no_mangle)]
pub extern "C" fn planner_cell_words(
    d: u32,
    axes: &[u32],
    words: &mut [u32],
    keys: &mut [u32],
    rows: &mut [u32],
    spare: &mut [u32],
    counts: &mut [u32],
) -> u64
    ensures { Said counted_code (λ a. CellWords (plain_given d axes.now) a words.old words.new keys.old keys.new rows.old
        rows.new spare.old spare.new counts.old counts.new) result }
{
    let g = given::plain(d, axes);
    said::counted(grid_mesh::cell_words(g, words, keys, rows, spare, counts))
}

// The cells of the grid, d+1 vertices each, in colex order, and an order of them where there is one: how many, with 2^31 more where the order is handed out. Refused: 1,
// 9, 8, 3, 6, then 12 where a working list is too short, then 7, 12 where a result list is too short.
#[unsafe(no_mangle)]
pub extern "C" fn planner_triangulate_ordered(
    d: u32,
    axes: &[u32],
    cells: &mut [u32],
    order: &mut [u32],
    keys: &mut [u32],
    rows: &mut [u32],
    spare: &mut [u32],
    counts: &mut [u32],
) -> u64
    ensures { Said triangulated_code (λ a. TriangulateOrdered (plain_given d axes.now) a cells.old cells.new order.old order.new
        keys.old keys.new rows.old rows.new spare.old spare.new counts.old counts.new) result }
{
    let g = given::plain(d, axes);
    said::triangulated(grid_order::triangulate_ordered(g, cells, order, keys, rows, spare, counts))
}
