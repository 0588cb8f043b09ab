// Whether a grid is taken in this mode, how many points it has, and how much room its classes need.
ghost use Rattle.std.specs.Prelude.{◌≡◌};
ghost use Rattle.refusal.specs.Says.{fine};
ghost use Rattle.quotient.specs.Shape.{cell_count};
ghost use Rattle.quotient.specs.Points.{points_of};
ghost use Rattle.grid_chained.specs.Shape.{shape_of, need_of};

use quotient::Grid;
use refusal::Refusal;

// Whether the grid is taken before its classes are counted: 1, 9, 8 and 3, in this order. `quotient`'s check asks 6 last, of the other mode's count.
pub fn check(grid: Grid) -> Result<(), Refusal>
    ensures { result ≡ shape_of grid }
{
    let checked = grid.check();
    if checked == Err(Refusal::TooManyVertices) {
        Ok(())
    } else {
        checked
    }
}

// How many points a grid has that is taken.
pub fn points(grid: Grid) -> usize
    requires { shape_of grid ≡ fine }
    ensures { result ≡ points_of grid }
{
    let mut p = 1usize;
    for k in 0..grid.d {
        p *= grid.points_on(k);
    }
    p
}

// How many cells a grid has that is taken.
fn cells(grid: Grid) -> usize
    requires { shape_of grid ≡ fine }
    ensures { result ≡ cell_count grid }
{
    let mut p = 1usize;
    for k in 0..grid.d {
        let a = grid.axis(k);
        let q = p * (a.count as usize);
        p = q * (k as usize + 1);
    }
    p
}

// The room that the classes of a grid need that is taken: a place for each corner of its words.
pub fn need(grid: Grid) -> usize
    requires { shape_of grid ≡ fine }
    ensures { result ≡ need_of grid }
{
    let d = grid.d as usize;
    cells(grid) * (d + 1)
}
