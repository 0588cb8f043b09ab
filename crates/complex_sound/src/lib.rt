// Checking a list of cells when nothing of it is handed out: 1, 2, 3, 4, 6, 5, the working room, 7. A call whose result is no list of cells begins with this.
//
// The port added it.
#![tactic(auto)]

ghost use Rattle.std.specs.Prelude.{length};
ghost use Rattle.lists.specs.Zero.{AllZero};
ghost use Rattle.complex_sound.specs.Promise.{Checked};
ghost use Rattle.complex_sound.specs.Work.{Working, Sound};

use refusal::{Refusal, Room};

// Whether no facet lies in three or more cells.
fn sound(
    d: usize,
    words: &[u32],
    keys: &mut [u32],
    rows: &mut [u32],
    spare: &mut [u32],
    counts: &mut [u32],
) -> bool
    requires { Working d words.now keys.old rows.old spare.old counts.old }
    ensures { Sound d words.now result }
{
    let m = complex_cells::cells(d, words, keys, rows, spare, counts);
    complex_mates::mates(d, m, words.len(), keys, rows, spare, counts)
}

// The same, and then the working lists are all zero.
fn cleared(
    d: usize,
    words: &[u32],
    keys: &mut [u32],
    rows: &mut [u32],
    spare: &mut [u32],
    counts: &mut [u32],
) -> bool
    requires { Working d words.now keys.old rows.old spare.old counts.old }
    ensures work { Sound d words.now result }
    ensures room { AllZero keys.old keys.new rows.old rows.new spare.old spare.new counts.old
        counts.new }
{
    let said = sound(d, words, keys, rows, spare, counts);
    lists::clear_four(keys, rows, spare, counts);
    said
}

// Checks a list of cells of dimension d: 1, 2, 3, 4, 6, 5, then 12 where a working list is too short (`need_of`), then 7. From the room's test on what is needed of the
// working lists is zero at the end.
pub fn check(
    d: u32,
    words: &[u32],
    keys: &mut [u32],
    rows: &mut [u32],
    spare: &mut [u32],
    counts: &mut [u32],
) -> Result<(), Refusal>
    ensures { Checked d words.now result keys.old keys.new rows.old rows.new spare.old spare.new
        counts.old counts.new }
{
    complex::check_cells(d, words)?;
    let dim = d as usize;
    let need = complex::need(dim, words.len());
    let have = Room {
        keys: keys.len(),
        rows: rows.len(),
        spare: spare.len(),
        counts: counts.len(),
    };
    if !refusal::has_room(need, have) {
        return Err(Refusal::TooShort);
    }
    let k = need.keys;
    let r = need.rows;
    let s = need.spare;
    let c = need.counts;
    if cleared(
        dim,
        words,
        &mut keys[..k],
        &mut rows[..r],
        &mut spare[..s],
        &mut counts[..c],
    ) {
        return Ok(());
    }
    Err(Refusal::CrowdedFacet)
}
