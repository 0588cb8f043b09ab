// Whole swaths: many grid points reduced in one call, each as the single call does it. The port added it (document 02, K10). The grid is checked once for the list; a number past the last
// grid point is marked as no vertex.
#![tactic(auto)]

ghost use Rattle.std.specs.Prelude.{◌≡◌, length};
ghost use Rattle.refusal.specs.Says.{fine};
ghost use Rattle.refusal.specs.Lent.{onto};
ghost use Rattle.quotient.specs.Shape.{check_of};
ghost use Rattle.grid_swath.specs.Swath.{swath_of, swath_says, swath_hands};

use quotient::{Grid, GridVertex};
use refusal::Refusal;

// Writes the vertex of each point, in a grid that is taken.
fn reduce_all(grid: Grid, points: &[u32], glued: &mut [u32])
    requires { (check_of grid ≡ fine) × (length glued.old ≡ length points.now) }
    ensures { glued.new ≡ swath_of grid points.now }
{
    for (i, &point) in points.iter().enumerate() {
        let c = grid.crossed(GridVertex(point));
        glued[i] = c.vertex.0;
    }
}

// One glued number for each point, NO_VERTEX where it is past the last. Refused: 1, 9, 8, 3, 6, then 12 where the list is too short for all results; a refusal changes nothing.
pub fn swath(grid: Grid, points: &[u32], glued: &mut [u32]) -> Result<(), Refusal>
    ensures value { result ≡ swath_says grid points.now (length glued.old) }
    ensures glued_after { glued.new ≡ onto (swath_hands grid points.now (length glued.old)) glued.old }
{
    grid.check()?;
    let n = points.len();
    if glued.len() < n {
        return Err(Refusal::TooShort);
    }
    reduce_all(grid, points, &mut glued[..n]);
    Ok(())
}
