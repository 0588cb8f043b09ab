// A point at an end of an axis, and the point across it.
ghost use Rattle.std.specs.Prelude.{◌≡◌, ◌<◌, ◌≤◌};
ghost use Rattle.refusal.specs.Says.{fine};
ghost use Rattle.quotient.specs.Shape.{cells_on};
ghost use Rattle.quotient.specs.Reduce.{coord_at};
ghost use Rattle.quotient.specs.Points.{points_of};
ghost use Rattle.grid_chained.specs.Shape.{shape_of};
ghost use Rattle.grid_chained.specs.WorkTurn.{end_at, turns_at, turn, across_of};

use quotient::{Grid, mask};

// Whether axis a is closed and point v lies at one of its ends.
pub fn at_end(grid: Grid, v: u32, a: u32) -> bool
    ensures { result ≡ end_at grid v a }
{
    let x = grid.axis(a);
    let g = x.glue;
    let n = x.count as usize;
    if g.closed() {
        let c = grid.coordinate(v, a);
        if c == 0 { true } else { c == n }
    } else {
        false
    }
}

// Whether a step along axis a turns axis k round.
fn turns(grid: Grid, a: u32, k: u32) -> bool
    ensures { result ≡ turns_at grid a k }
{
    let x = grid.axis(a);
    let g = x.glue;
    if k == a {
        true
    } else {
        mask::member_of(g.mask(), k)
    }
}

// Coordinate k of point v, turned where a step along axis a turns it.
fn turned(grid: Grid, v: u32, a: u32, k: u32) -> usize
    ensures { result ≡ turn (turns_at grid a k) (cells_on grid k) (coord_at grid v k) }
{
    let x = grid.axis(k);
    let n = x.count as usize;
    let c = grid.coordinate(v, k);
    if turns(grid, a, k) { n - c } else { c }
}

// The point across axis a from point v, in a grid that is taken.
pub fn across(grid: Grid, v: u32, a: u32) -> u32
    requires { shape_of grid ≡ fine }
    ensures { (result ≡ across_of grid v a) × (result < points_of grid) }
{
    let mut s = 1usize;
    let mut x = 0usize;
    for k in 0..grid.d {
        x += s * turned(grid, v, a, k);
        s *= grid.points_on(k);
    }
    x as u32
}
