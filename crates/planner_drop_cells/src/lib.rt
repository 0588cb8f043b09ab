// Added by the port: the call `drop_cells` as a C function. The convention of all C functions stands in planner_passing.
#![tactic(auto)]

ghost use Rattle.std.specs.Prelude.{◌≡◌};
ghost use Rattle.complex_dropped.specs.Promise.{DropCells};
ghost use Rattle.planner_passing.specs.Said.{Said};
ghost use Rattle.planner_drop_cells.specs.Passed.{dropped_code, dropped_vertices};

use complex_dropped::Dropped;
use planner_passing::said;
use refusal::Refusal;

// How many words stay; the number of their vertices goes to the list. A refusal leaves the list as it was.
fn passed(answer: Result<Dropped, Refusal>, vertices: &mut [u32; 1]) -> u64
    ensures value { result ≡ dropped_code answer }
    ensures vertices_after { vertices.new ≡ dropped_vertices answer vertices.old }
{
    match answer {
        Ok(kept) => {
            vertices[0] = kept.vertices;
            kept.words as u64
        }
        Err(why) => said::refused(why),
    }
}

// The words of the cells that do not go, in the order given and by new vertex numbers: how many, a word given twice counted twice; the old number for each new one; the number
// of vertices goes to `vertices`. Refused: 1, 2, 3, 4, 6, 5, then 12 where a working list is too short, then 7, 23 where `gone` names a cell that is not there, 2 where
// all cells would go, 12 where a result list is too short.
#[unsafe(no_mangle)]
pub extern "C" fn planner_drop_cells(
    d: u32,
    words: &[u32],
    gone: &[u32],
    kept: &mut [u32],
    old: &mut [u32],
    keys: &mut [u32],
    rows: &mut [u32],
    spare: &mut [u32],
    counts: &mut [u32],
    vertices: &mut [u32; 1],
) -> u64
    ensures { Said dropped_code (λ a. DropCells d words.now gone.now a kept.old kept.new old.old old.new keys.old
        keys.new rows.old rows.new spare.old spare.new counts.old counts.new
        × (vertices.new ≡ dropped_vertices a vertices.old)) result }
{
    let answer = complex_dropped::drop_cells(d, words, gone, kept, old, keys, rows, spare, counts);
    passed(answer, vertices)
}
