// The classes by either engine.
ghost use Rattle.grid_chained.specs.Classing.{Classes};
ghost use Rattle.grid_chained.specs.WorkNumber.{Labelled};
ghost use Rattle.grid_chained.specs.Work.{Pointwise};

use crate::{number, plain, quick};
use quotient::Grid;

// Writes the least point of its class for each point, by the plain engine or by the quick one.
fn label(grid: Grid, plainly: bool, points: &mut [u32])
    requires { Pointwise grid points.old }
    ensures { Labelled grid points.new }
{
    if plainly {
        plain::plain_labels(grid, points);
        return;
    }
    quick::quick_labels(grid, points);
}

// Writes the number of its class for each point, and says how many classes there are. For the crates above.
pub fn numbers(grid: Grid, plainly: bool, points: &mut [u32]) -> usize
    requires { Pointwise grid points.old }
    ensures { Classes grid points.new result }
{
    label(grid, plainly, points);
    number::number(points)
}
