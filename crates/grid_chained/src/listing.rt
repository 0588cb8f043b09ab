// The list calls: the classes are numbered in the room and copied to the result.
ghost use Rattle.std.specs.Prelude.{◌≡◌, length, replicate};
ghost use Rattle.grid_chained.specs.PromiseClasses.{ClassesListed};
ghost use Rattle.grid_chained.specs.Work.{Working, Worked};

use crate::{check, engines};
use quotient::Grid;
use refusal::{MOST_VERTICES, Refusal};

// The work of the list calls, in just the room needed.
fn work(grid: Grid, plainly: bool, to: &mut [u32], room: &mut [u32]) -> Result<u32, Refusal>
    requires { Working grid room.old }
    ensures { Worked grid result to.old to.new }
{
    let n = check::points(grid);
    let m = engines::numbers(grid, plainly, &mut room[..n]);
    if MOST_VERTICES < m {
        return Err(Refusal::TooManyVertices);
    }
    if to.len() < n {
        return Err(Refusal::TooShort);
    }
    lists::copy(&room[..n], &mut to[..n]);
    Ok(m as u32)
}

// The work, and then the room is all zero.
fn cleared(grid: Grid, plainly: bool, to: &mut [u32], room: &mut [u32]) -> Result<u32, Refusal>
    requires { Working grid room.old }
    ensures work { Worked grid result to.old to.new }
    ensures room { room.new ≡ replicate (length room.old) 0 }
{
    let said = work(grid, plainly, to, room);
    room.fill(0);
    said
}

// The list of classes by one of the engines.
pub fn listed(grid: Grid, plainly: bool, to: &mut [u32], room: &mut [u32]) -> Result<u32, Refusal>
    ensures { ClassesListed grid result to.old to.new room.old room.new }
{
    check::check(grid)?;
    let need = check::need(grid);
    if room.len() < need {
        return Err(Refusal::TooShort);
    }
    cleared(grid, plainly, to, &mut room[..need])
}
