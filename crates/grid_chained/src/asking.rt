// The questions of one point and of the count: the classes are numbered in the room and looked at.
ghost use Rattle.std.specs.Prelude.{◌≡◌, length, replicate};
ghost use Rattle.grid_chained.specs.Work.{Working, Looked};

use crate::{check, engines};
use quotient::Grid;
use quotient::reduce::NO_VERTEX;

// What is found at a point: how many classes there are, and the number of its class.
#[derive(Clone, Copy)]
pub struct Look {
    pub count: usize,
    pub class: u32,
}

// The work of the questions, in just the room needed.
fn work(grid: Grid, v: u32, room: &mut [u32]) -> Look
    requires { Working grid room.old }
    ensures { Looked grid v result.count result.class }
{
    let n = check::points(grid);
    let m = engines::numbers(grid, false, &mut room[..n]);
    let at = v as usize;
    if at < n {
        return Look {
            count: m,
            class: room[at],
        };
    }
    Look {
        count: m,
        class: NO_VERTEX,
    }
}

// The work, and then the room is all zero.
pub fn cleared(grid: Grid, v: u32, room: &mut [u32]) -> Look
    requires { Working grid room.old }
    ensures work { Looked grid v result.count result.class }
    ensures room { room.new ≡ replicate (length room.old) 0 }
{
    let said = work(grid, v, room);
    room.fill(0);
    said
}
