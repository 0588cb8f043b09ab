// The calls on flat grids: lengths of edges.
ghost use Rattle.std.specs.Prelude.{◌≡◌};
ghost use Rattle.grid_lengths.specs.Lengths.{EdgeLengths};
ghost use Rattle.grid_lengths.specs.Settled.{edge_length_of};
ghost use Rattle.planner_passing.specs.Said.{Said, counted_code, length_code, length_squares};
ghost use Rattle.planner_passing.specs.Given.{grid_given, glued_given};

use planner_passing::{given, said};
use quotient::GluedVertex;

// The squared length of each edge, in colex order of the edges: how many. Refused: 1, 10, 9, 8, 3, 6, then 12 where a working list is too short, then 15 where an edge gets two
// lengths, 12 where the length list is too short.
#[unsafe(no_mangle)]
pub extern "C" fn planner_edge_lengths_sq(
    d: u32,
    axes: &[u32],
    sides: &[f64],
    lengths: &mut [f64],
    keys: &mut [u32],
    rows: &mut [u32],
    spare: &mut [u32],
    counts: &mut [u32],
) -> u64
    ensures { Said counted_code (λ a. EdgeLengths (grid_given d axes.now sides.now) a lengths.old lengths.new keys.old keys.new
        rows.old rows.new spare.old spare.new counts.old counts.new) result }
{
    let g = given::grid(d, axes, sides);
    said::counted(grid_lengths::edge_lengths_sq(g, lengths, keys, rows, spare, counts))
}

// The edge between two glued vertices: how many squared lengths it has, and these. 0 is no such edge, 1 its squared length, 2 the two that clash first. Refused: 1, 10, 9,
// 8, 3, 6.
#[unsafe(no_mangle)]
pub extern "C" fn planner_edge_length_sq(
    d: u32,
    from: u32,
    to: u32,
    axes: &[u32],
    sides: &[f64],
    squares: &mut [f64; 2],
) -> u64
    ensures value { result ≡ length_code (edge_length_of (grid_given d axes.now sides.now) (glued_given from) (glued_given to)) }
    ensures squares_after { squares.new ≡ length_squares (edge_length_of (grid_given d axes.now sides.now) (glued_given from) (glued_given to)) squares.old }
{
    let g = given::grid(d, axes, sides);
    said::edge_length(
        grid_lengths::edge_length_sq(g, GluedVertex(from), GluedVertex(to)),
        squares,
    )
}
