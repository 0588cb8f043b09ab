// A gluing step: it leaves from a point at the far end of a closed axis and leads to the near end.
ghost use Rattle.std.specs.Prelude.{◌≡◌, ◌<◌};
ghost use Rattle.refusal.specs.Says.{fine};
ghost use Rattle.quotient.specs.Reduce.{wrapped_at};
ghost use Rattle.quotient.specs.Points.{points_of, point_of};
ghost use Rattle.quotient.specs.Chain.{stepped_to};
ghost use Rattle.grid_chained.specs.Shape.{shape_of};

use quotient::{Grid, mask};

// Whether a step along axis a leaves from point v: a is closed, and v lies at its far end.
pub fn leaves(grid: Grid, v: u32, a: u32) -> bool
    ensures { result ≡ wrapped_at grid v a }
{
    let x = grid.axis(a);
    let g = x.glue;
    let n = x.count as usize;
    if g.closed() {
        grid.coordinate(v, a) == n
    } else {
        false
    }
}

// Coordinate k of the point that a step along axis a leads to from point v: 0 on a itself, n - c on an axis that a reflects, c on any other.
fn coordinate(grid: Grid, v: u32, a: u32, k: u32) -> usize
    ensures { result ≡ stepped_to grid v a k }
{
    if k == a {
        return 0;
    }
    let x = grid.axis(a);
    let g = x.glue;
    let y = grid.axis(k);
    let n = y.count as usize;
    let c = grid.coordinate(v, k);
    if mask::member_of(g.mask(), k) {
        n - c
    } else {
        c
    }
}

// The point that a step along axis a leads to from point v, in a grid that is taken.
pub fn leads(grid: Grid, v: u32, a: u32) -> u32
    requires { shape_of grid ≡ fine }
    ensures { (result ≡ point_of grid (stepped_to grid v a)) × (result < points_of grid) }
{
    let mut s = 1usize;
    let mut x = 0usize;
    for k in 0..grid.d {
        x += s * coordinate(grid, v, a, k);
        s *= grid.points_on(k);
    }
    x as u32
}
