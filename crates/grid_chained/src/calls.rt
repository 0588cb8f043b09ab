// The calls of this mode.
ghost use Rattle.grid_chained.specs.PromiseClasses.{ClassesListed};
ghost use Rattle.grid_chained.specs.PromiseReduce.{ReducedTo};
ghost use Rattle.grid_chained.specs.PromiseCount.{CountedTo};

use crate::{ClassVertex, asking, check, listing};
use quotient::{Grid, GridVertex};
use refusal::{MOST_VERTICES, Refusal};

// The class of each grid point, and how many classes there are. Refused: 1, 9, 8, 3, then 12 where the room is too short, 6 by the number of classes, 12 where the
// list is too short. A refusal changes no result; from the room's test on what is needed of it is zero at the end.
pub fn classes(grid: Grid, to: &mut [u32], room: &mut [u32]) -> Result<u32, Refusal>
    ensures { ClassesListed grid result to.old to.new room.old room.new }
{
    listing::listed(grid, false, to, room)
}

// The same by the plain engine.
pub fn closed_classes(grid: Grid, to: &mut [u32], room: &mut [u32]) -> Result<u32, Refusal>
    ensures { ClassesListed grid result to.old to.new room.old room.new }
{
    listing::listed(grid, true, to, room)
}

// The class of grid point v, NO_VERTEX past the last point. Refused: 1, 9, 8, 3, then 12 where the room is too short, then 6 by the number of classes. Each call numbers
// the whole grid: for many points take `classes`.
pub fn reduce(grid: Grid, v: GridVertex, room: &mut [u32]) -> Result<ClassVertex, Refusal>
    ensures { ReducedTo grid v.0 result room.old room.new }
{
    check::check(grid)?;
    let need = check::need(grid);
    if room.len() < need {
        return Err(Refusal::TooShort);
    }
    let look = asking::cleared(grid, v.0, &mut room[..need]);
    if MOST_VERTICES < look.count {
        return Err(Refusal::TooManyVertices);
    }
    Ok(ClassVertex(look.class))
}

// How many classes the grid's points make. Refused as in `reduce`; each call numbers the whole grid.
pub fn nvertices(grid: Grid, room: &mut [u32]) -> Result<u32, Refusal>
    ensures { CountedTo grid result room.old room.new }
{
    check::check(grid)?;
    let need = check::need(grid);
    if room.len() < need {
        return Err(Refusal::TooShort);
    }
    let look = asking::cleared(grid, 0, &mut room[..need]);
    if MOST_VERTICES < look.count {
        return Err(Refusal::TooManyVertices);
    }
    Ok(look.count as u32)
}
