// How long the lists of the C functions on faces, on the cells at each vertex and on meshes without some of their cells must be, as planner_needs tells it for cells. With
// lists of these lengths the call never says 12 (proofs/Enough). The port added it: the Rust has no lent lists.
#![tactic(auto)]

ghost use Rattle.std.specs.Prelude.{◌≡◌};
ghost use Rattle.needs.specs.Needs.{worked};
ghost use Rattle.planner_needs_faces.specs.Needs.{index_need, faces_need, boundary_need, market_need, dropped_need};
ghost use Rattle.planner_needs_faces.specs.Work.{FaceRoom};

use needs::{corners, key_room};
use refusal::Room;

// What the calls on faces need of their working lists.
fn face_room(d: u32, n: usize) -> Room
    ensures { FaceRoom d n result }
{
    let m = corners(d, n);
    if m == 0 {
        return Room {
            keys: 0,
            rows: 0,
            spare: 0,
            counts: 0,
        };
    }
    complex_boundary::need(d as usize, m)
}

// planner_incidence: starts, touching, keys, rows, spare, counts.
#[unsafe(no_mangle)]
pub extern "C" fn planner_need_incidence(d: u32, n: usize, need: &mut [usize; 6])
    ensures { need.new ≡ index_need d (worked d n) }
{
    let m = corners(d, n);
    let k = key_room(d, m);
    *need = [m + 1, m, k, m, m, m];
}

// planner_faces, of any dimension: faces, keys, rows, spare, counts.
#[unsafe(no_mangle)]
pub extern "C" fn planner_need_faces(d: u32, n: usize, need: &mut [usize; 5])
    ensures { need.new ≡ faces_need d (worked d n) }
{
    let r = face_room(d, n);
    *need = [r.rows, r.keys, r.rows, r.spare, r.counts];
}

// planner_boundary, of any dimension: signs, faces, cofaces, keys, rows, spare, counts.
#[unsafe(no_mangle)]
pub extern "C" fn planner_need_boundary(d: u32, n: usize, need: &mut [usize; 7])
    ensures { need.new ≡ boundary_need d (worked d n) }
{
    let r = face_room(d, n);
    *need = [r.rows, r.rows, r.rows, r.keys, r.rows, r.spare, r.counts];
}

// planner_matrix_market, of any dimension: bytes, keys, rows, spare, counts.
#[unsafe(no_mangle)]
pub extern "C" fn planner_need_matrix_market(d: u32, n: usize, need: &mut [usize; 5])
    ensures { need.new ≡ market_need d (worked d n) }
{
    let r = face_room(d, n);
    *need = [83 + 34 * r.rows, r.keys, r.rows, r.spare, r.counts];
}

// planner_drop_cells: kept, old, keys, rows, spare, counts.
#[unsafe(no_mangle)]
pub extern "C" fn planner_need_drop_cells(d: u32, n: usize, need: &mut [usize; 6])
    ensures { need.new ≡ dropped_need d (worked d n) }
{
    let m = corners(d, n);
    let k = key_room(d, m);
    *need = [m, m, k, m, m, m];
}
