// The calls of mesh files as C functions, on numbers and lists only. Each is a thin call of the proved one, has its promise, and asks nothing of its caller. The port
// added it.
//
// What is returned, and in which order the parameters stand, is as for all of the planner's C functions (planner_passing): one 64-bit number, the refusal's number in its
// upper half and its place in the lower; upper half 0 is no refusal, and the lower half is the answer.
#![tactic(auto)]

ghost use Rattle.std.specs.Prelude.{◌≡◌};
ghost use Rattle.file_mesh_write.specs.Promise.{MeshWritten, mesh_of};
ghost use Rattle.file_mesh_read.specs.Promise.{MeshRead};
ghost use Rattle.planner_passing.specs.Said.{Said, counted_code};
ghost use Rattle.planner_mesh_files.specs.Read.{read_code, read_shape};

use file_mesh_read::Reading;
use planner_passing::said;
use refusal::Refusal;

// A file that was read: how many cells it has; its dimension and its numbers of births and pairs go to `shape`, which a refusal leaves as it was.
fn shaped(reading: Result<Reading, Refusal>, shape: &mut [u32; 3]) -> u64
    ensures value { result ≡ read_code reading }
    ensures shape_after { shape.new ≡ read_shape reading shape.old }
{
    match reading {
        Ok(mesh) => {
            *shape = [mesh.dimension, mesh.births, mesh.pairs];
            mesh.cells as u64
        }
        Err(why) => said::refused(why),
    }
}

// Writes the file of a mesh: how many bytes. Refused: 1, 2, 3, 4, 6, 5, then 12 where a working list is too short, then 7, 22 where the lists break the rules of a mesh
// file, 12 where the byte list is too short.
#[unsafe(no_mangle)]
pub extern "C" fn planner_write_mesh(
    d: u32,
    words: &[u32],
    births: &[u32],
    pairs: &[u32],
    bytes: &mut [u8],
    keys: &mut [u32],
    rows: &mut [u32],
    spare: &mut [u32],
    counts: &mut [u32],
) -> u64
    ensures { Said counted_code (λ a. MeshWritten (mesh_of d words.now births.now pairs.now) a bytes.old bytes.new
        keys.old keys.new rows.old rows.new spare.old spare.new counts.old
        counts.new) result }
{
    said::counted(file_mesh_write::write_mesh(
        d, words, births, pairs, bytes, keys, rows, spare, counts,
    ))
}

// Reads a mesh file: how many cells; `shape` takes the dimension and how many births and pairs there are. Refused: 20, 21, 22 as the bytes come, 1, 2, 3, 4, 6, 5, then 12
// where a working list is too short, then 7, 12 where a result list is too short.
#[unsafe(no_mangle)]
pub extern "C" fn planner_read_mesh(
    bytes: &[u8],
    words: &mut [u32],
    births: &mut [u32],
    pairs: &mut [u32],
    keys: &mut [u32],
    rows: &mut [u32],
    spare: &mut [u32],
    counts: &mut [u32],
    shape: &mut [u32; 3],
) -> u64
    ensures { Said read_code (λ a. MeshRead bytes.now a words.old words.new births.old births.new pairs.old
        pairs.new keys.old keys.new rows.old rows.new spare.old spare.new
        counts.old counts.new × (shape.new ≡ read_shape a shape.old)) result }
{
    let reading = file_mesh_read::read_mesh(bytes, words, births, pairs, keys, rows, spare, counts);
    shaped(reading, shape)
}
