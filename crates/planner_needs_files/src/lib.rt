// How long the lists of the C functions on mesh files must be, as planner_needs tells it for cells: those of the writer by the lengths of a mesh's lists, those of the reader by
// the length of a file. With lists of these lengths the call never says 12 (proofs/Enough). The port added it: the Rust has no lent lists.
#![tactic(auto)]

ghost use Rattle.std.specs.Prelude.{◌≡◌};
ghost use Rattle.needs.specs.Needs.{worked};
ghost use Rattle.planner_needs_files.specs.Needs as told;

use needs::{corners, key_room};
use refusal::{MOST_DIMENSION, MOST_REFINEMENT, MOST_VERTICES};

// The numbers of a list of births or pairs that a call can come to write: none where the births of no mesh have as many.
fn within(n: usize) -> usize
    ensures { result ≡ told.within n }
{
    let most = (14 + 6 * MOST_REFINEMENT as usize) * MOST_VERTICES;
    if most < n {
        return 0;
    }
    n
}

// planner_write_mesh, where the lists births and pairs have as many numbers: bytes, keys, rows, spare, counts.
#[unsafe(no_mangle)]
pub extern "C" fn planner_need_write_mesh(
    d: u32,
    n: usize,
    births: usize,
    pairs: usize,
    need: &mut [usize; 5],
)
    ensures { need.new ≡ told.written_need d (worked d n) births pairs }
{
    let m = corners(d, n);
    let k = key_room(d, m);
    let wide = 10 + 4 * (d as usize);
    let cells = m / (d as usize + 1);
    let b = within(births);
    let p = within(pairs);
    *need = [16 + cells * wide + b / 3 * 14 + p / 2 * 6, k, m, m, m];
}

// planner_read_mesh, where the file has as many bytes: words, births, pairs, keys, rows, spare, counts, all of them at most, since only the file tells.
#[unsafe(no_mangle)]
pub extern "C" fn planner_need_read_mesh(bytes: usize, need: &mut [usize; 7])
    ensures { need.new ≡ told.read_need bytes }
{
    let n = bytes / 4;
    *need = [
        n,
        bytes / 8,
        bytes / 3,
        MOST_DIMENSION as usize * n,
        n,
        n,
        n,
    ];
}
