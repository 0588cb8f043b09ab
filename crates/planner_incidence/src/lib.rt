// Added by the port: the calls on faces, the boundary operator and the cells at each vertex as C functions. The convention of all C functions stands in planner_passing.
#![tactic(auto)]

ghost use Rattle.complex_incidence.specs.Promise.{Indexed};
ghost use Rattle.complex_boundary.specs.Promise.{Faced, Bounded};
ghost use Rattle.file_market.specs.Promise.{Marketed};
ghost use Rattle.planner_passing.specs.Said.{Said, counted_code};

use planner_passing::said;

// The cells at each vertex, rising: those of vertex v stand in `touching` from starts[v] on, up to starts[v + 1]. How many vertices; `starts` gets one number more. Refused:
// 1, 2, 3, 4, 6, 5, then 12 where a working list is too short, then 7, 12 where a result list is too short.
#[unsafe(no_mangle)]
pub extern "C" fn planner_incidence(
    d: u32,
    words: &[u32],
    starts: &mut [u32],
    touching: &mut [u32],
    keys: &mut [u32],
    rows: &mut [u32],
    spare: &mut [u32],
    counts: &mut [u32],
) -> u64
    ensures { Said counted_code (λ a. Indexed d words.now a touching.old touching.new starts.old starts.new keys.old
        keys.new rows.old rows.new spare.old spare.new counts.old counts.new) result }
{
    said::counted(complex_incidence::incidence(
        d, words, starts, touching, keys, rows, spare, counts,
    ))
}

// The faces of dimension k, k+1 vertices each, in colex order: how many. Refused: 1, 2, 3, 4, 6, 5, then 12 where a working list is too short, then 7, 24 where k is above
// d, 12 where the result list is too short.
#[unsafe(no_mangle)]
pub extern "C" fn planner_faces(
    d: u32,
    k: u32,
    words: &[u32],
    faces: &mut [u32],
    keys: &mut [u32],
    rows: &mut [u32],
    spare: &mut [u32],
    counts: &mut [u32],
) -> u64
    ensures { Said counted_code (λ a. Faced d k words.now a faces.old faces.new keys.old keys.new rows.old rows.new
        spare.old spare.new counts.old counts.new) result }
{
    said::counted(complex_boundary::faces(d, k, words, faces, keys, rows, spare, counts))
}

// The boundary operator from the faces of dimension k to those of dimension k - 1: a sign, a face and a coface for each entry, by rising coface, then by dropped position. How
// many entries. Refused as `planner_faces` is, 24 also where k is 0, 12 also where any of the three result lists is too short.
#[unsafe(no_mangle)]
pub extern "C" fn planner_boundary(
    d: u32,
    k: u32,
    words: &[u32],
    signs: &mut [i32],
    faces: &mut [u32],
    cofaces: &mut [u32],
    keys: &mut [u32],
    rows: &mut [u32],
    spare: &mut [u32],
    counts: &mut [u32],
) -> u64
    ensures { Said counted_code (λ a. Bounded d k words.now a signs.old signs.new faces.old faces.new cofaces.old
        cofaces.new keys.old keys.new rows.old rows.new spare.old spare.new
        counts.old counts.new) result }
{
    said::counted(complex_boundary::boundary(
        d, k, words, signs, faces, cofaces, keys, rows, spare, counts,
    ))
}

// The boundary operator as a Matrix Market file: how many bytes. Refused as `planner_boundary` is, 12 also where the byte list is too short.
#[unsafe(no_mangle)]
pub extern "C" fn planner_matrix_market(
    d: u32,
    k: u32,
    words: &[u32],
    bytes: &mut [u8],
    keys: &mut [u32],
    rows: &mut [u32],
    spare: &mut [u32],
    counts: &mut [u32],
) -> u64
    ensures { Said counted_code (λ a. Marketed d k words.now a bytes.old bytes.new keys.old keys.new rows.old rows.new
        spare.old spare.new counts.old counts.new) result }
{
    said::counted(file_market::matrix_market(d, k, words, bytes, keys, rows, spare, counts))
}
