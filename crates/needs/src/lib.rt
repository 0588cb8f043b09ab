// What the functions that tell the lengths of a call's lists are made of: the corners that a call can come to work on, and the keys of its rows. What it means that lists are
// long enough stands in specs/Enough, that a call of the common shape never says 12 then in proofs/Enough. The port added it: the Rust has no lent lists.
#![tactic(auto)]

ghost use Rattle.std.specs.Prelude.{◌≡◌, suc, ◌*◌, ◌≤◌};
ghost use Rattle.refusal.specs.Limits.{most_cells, most_dimension};
ghost use Rattle.complex.specs.Room.{key_room};
ghost use Rattle.needs.specs.Needs.{Worked};

use refusal::{MOST_CELLS, MOST_DIMENSION};

// The corners that a call can come to work on: none where the dimension or the number of cells is refused before the lists are looked at.
pub fn corners(d: u32, n: usize) -> usize
    ensures { Worked d n result }
{
    if MOST_DIMENSION < d {
        return 0;
    }
    let most = MOST_CELLS * (d as usize + 1);
    if most < n {
        return 0;
    }
    n
}

// How many numbers the keys of the facet rows take.
pub fn key_room(d: u32, n: usize) -> usize
    requires { d * n ≤ most_dimension * (most_cells * suc most_dimension) }
    ensures { result ≡ key_room d n }
{
    if d == 0 {
        return n;
    }
    d as usize * n
}
