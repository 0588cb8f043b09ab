// The quick engine: the least point of a class, by going through its points.
ghost use Rattle.std.specs.Prelude.{◌≡◌, length};
ghost use Rattle.refusal.specs.Says.{fine};
ghost use Rattle.quotient.specs.Points.{points_of};
ghost use Rattle.grid_chained.specs.Shape.{shape_of};
ghost use Rattle.grid_chained.specs.WorkTurn.{least_below};
ghost use Rattle.grid_chained.specs.WorkNumber.{Labelled};

use crate::turn;
use quotient::Grid;

// The least point that v becomes across axes below a, in a grid that is taken.
fn least_below(grid: Grid, v: u32, a: u32) -> u32
    requires { shape_of grid ≡ fine }
    ensures { result ≡ least_below grid a v }
{
    if a == 0 {
        return v;
    }
    let b = a - 1;
    let here = least_below(grid, v, b);
    if !turn::at_end(grid, v, b) {
        return here;
    }
    let there = least_below(grid, turn::across(grid, v, b), b);
    if there < here { there } else { here }
}

// Writes the least point of its class for each point of a grid that is taken.
pub fn quick_labels(grid: Grid, labels: &mut [u32])
    requires { (shape_of grid ≡ fine) × (length labels.old ≡ points_of grid) }
    ensures { Labelled grid labels.new }
{
    let d = grid.d;
    for (v, label) in labels.iter_mut().enumerate() {
        *label = least_below(grid, v as u32, d);
    }
}
