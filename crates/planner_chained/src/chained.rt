// The calls of honest gluing: grid points are one class exactly where a chain of gluing steps joins them.
ghost use Rattle.std.specs.Prelude.{◌≡◌};
ghost use Rattle.grid_chained.specs.PromiseClasses.{ClassesListed};
ghost use Rattle.grid_chained.specs.PromiseReduce.{ReducedTo};
ghost use Rattle.grid_chained.specs.PromiseCount.{CountedTo};
ghost use Rattle.grid_chained_mesh.specs.Words.{CellWords};
ghost use Rattle.planner_passing.specs.Said.{Said, counted_code};
ghost use Rattle.planner_passing.specs.Given.{plain_given};
ghost use Rattle.planner_chained.specs.Said.{classed_code};

use crate::said as class_said;
use grid_chained::calls;
use planner_passing::{given, said};
use quotient::GridVertex;

// The class of grid point v, 4294967295 where v is past the last point. Refused: 1, 9, 8, 3, then 12 where the room is too short, then 6 by the number of classes.
#[unsafe(no_mangle)]
pub extern "C" fn planner_chained_reduce(d: u32, v: u32, axes: &[u32], room: &mut [u32]) -> u64
    ensures { Said classed_code (λ a. ReducedTo (plain_given d axes.now) v a room.old room.new) result }
{
    let g = given::plain(d, axes);
    class_said::classed(calls::reduce(g, GridVertex(v), room))
}

// The number of classes. Refused: 1, 9, 8, 3, then 12 where the room is too short, then 6 by the number of classes.
#[unsafe(no_mangle)]
pub extern "C" fn planner_chained_nvertices(d: u32, axes: &[u32], room: &mut [u32]) -> u64
    ensures { Said counted_code (λ a. CountedTo (plain_given d axes.now) a room.old room.new) result }
{
    let g = given::plain(d, axes);
    said::counted(calls::nvertices(g, room))
}

// The class of each grid point, and how many classes there are. Refused: 1, 9, 8, 3, then 12 where the room is too short, 6 by the number of classes, 12 where the
// list is too short.
#[unsafe(no_mangle)]
pub extern "C" fn planner_chained_classes(
    d: u32,
    axes: &[u32],
    classes: &mut [u32],
    room: &mut [u32],
) -> u64
    ensures { Said counted_code (λ a. ClassesListed (plain_given d axes.now) a classes.old classes.new room.old room.new) result }
{
    let g = given::plain(d, axes);
    said::counted(calls::classes(g, classes, room))
}

// The same by the plain engine.
#[unsafe(no_mangle)]
pub extern "C" fn planner_chained_closed_classes(
    d: u32,
    axes: &[u32],
    classes: &mut [u32],
    room: &mut [u32],
) -> u64
    ensures { Said counted_code (λ a. ClassesListed (plain_given d axes.now) a classes.old classes.new room.old room.new) result }
{
    let g = given::plain(d, axes);
    said::counted(calls::closed_classes(g, classes, room))
}

// The words of the grid's cells by classes, d+1 each, in the order of the sorted grid cells: how many. Refused: 1, 9, 8, 3, then 12 where a working list is too short, 6
// by the number of classes, 4 at the first word that names a class twice, 7, 12 where the word list is too short.
#[unsafe(no_mangle)]
pub extern "C" fn planner_chained_cell_words(
    d: u32,
    axes: &[u32],
    words: &mut [u32],
    keys: &mut [u32],
    rows: &mut [u32],
    spare: &mut [u32],
    counts: &mut [u32],
) -> u64
    ensures { Said counted_code (λ a. CellWords (plain_given d axes.now) a words.old words.new keys.old keys.new rows.old
        rows.new spare.old spare.new counts.old counts.new) result }
{
    let g = given::plain(d, axes);
    said::counted(grid_chained_mesh::cell_words(g, words, keys, rows, spare, counts))
}
