// Coherent signs. A facet of two cells has an induced sign from each; signs of cells are coherent if the products of cell sign and induced sign are opposite on each such
// facet. On a facet-connected piece one sign decides all others, so signs that are + at the lowest cell of each piece are the only ones, or there are none.
// Follows `Complex::orientation` (crates/simplicial/src/topology/orientation.rs).
//
// What the working lists hold, one phase after the other:
//   keys     sorted words     facet rows     records of the facets     the stack of the walk
//   rows     cells            mates          other rows of the facets  the cell across each slot
//   spare    first rows       first rows     first rows                whether signs differ across each slot
//   counts   buckets          facets of rows facets of rows            signs, 1 for + and 2 for -
#![tactic(auto)]

ghost use Rattle.std.specs.Prelude.{◌≡◌, ◌*◌, ◌<◌, ◌≤◌, length};
ghost use Rattle.lists.specs.Zero.{AllZero};
ghost use Rattle.orientation.specs.Promise.{Orientation, counted_of};
ghost use Rattle.orientation.specs.Work.{Furnished, Worked};

use refusal::{Refusal, Room};

// What the call says: how many cells got signs, or that there are no coherent signs, each with the facet looks of the walk.
#[derive(Clone, Copy, Debug, PartialEq, Eq)]
pub enum Coherence {
    Signs(u32, u32),
    OneSided(u32),
}

// The same without the looks: no coherent signs is a refusal.
pub fn counted(said: Result<Coherence, Refusal>) -> Result<u32, Refusal>
    ensures { result ≡ counted_of said }
{
    match said? {
        Coherence::Signs(cells, _) => Ok(cells),
        Coherence::OneSided(_) => Err(Refusal::NoSigns),
    }
}

// The work, in working lists of just the sizes that are needed. Nothing is promised of them.
fn work(
    d: usize,
    words: &[u32],
    signs: &mut [i32],
    keys: &mut [u32],
    rows: &mut [u32],
    spare: &mut [u32],
    counts: &mut [u32],
) -> Result<Coherence, Refusal>
    requires { Furnished d words.now keys.old rows.old spare.old counts.old }
    ensures { Worked d words.now result signs.old signs.new }
{
    let m = complex_cells::cells(d, words, keys, rows, spare, counts);
    if !complex_facets::links(d, m, words.len(), keys, rows, spare, counts) {
        return Err(Refusal::CrowdedFacet);
    }
    let searched = orientation_signs::coherent(d, m, rows, spare, counts, keys);
    if !searched.found {
        return Ok(Coherence::OneSided(searched.looks));
    }
    if signs.len() < m {
        return Err(Refusal::TooShort);
    }
    orientation_signs::hand_out(counts, &mut signs[..m]);
    let count = m as u32;
    Ok(Coherence::Signs(count, searched.looks))
}

// The work, and then the working lists are all zero.
fn cleared(
    d: usize,
    words: &[u32],
    signs: &mut [i32],
    keys: &mut [u32],
    rows: &mut [u32],
    spare: &mut [u32],
    counts: &mut [u32],
) -> Result<Coherence, Refusal>
    requires { Furnished d words.now keys.old rows.old spare.old counts.old }
    ensures work { Worked d words.now result signs.old signs.new }
    ensures room { AllZero keys.old keys.new rows.old rows.new spare.old spare.new counts.old
        counts.new }
{
    let said = work(d, words, signs, keys, rows, spare, counts);
    lists::clear_four(keys, rows, spare, counts);
    said
}

// One sign a cell, +1 or -1, coherent, +1 at the lowest cell of each piece, and the walk's facet looks: d + 1 a cell, none in dimension 0. Refused: 1, 2, 3, 4, 6, 5, then 12 where a working list is too short (`record_need`), then 7,
// 13 where no coherent signs exist (`OneSided`, with the looks up to the conflict), 12 where the sign list is too short. A refusal changes no sign; from the room's test on what is needed of the working lists is zero at the end.
pub fn orientation(
    d: u32,
    words: &[u32],
    signs: &mut [i32],
    keys: &mut [u32],
    rows: &mut [u32],
    spare: &mut [u32],
    counts: &mut [u32],
) -> Result<Coherence, Refusal>
    ensures { Orientation d words.now result signs.old signs.new keys.old keys.new rows.old rows.new
        spare.old spare.new counts.old counts.new }
{
    complex::check_cells(d, words)?;
    let dim = d as usize;
    let need = complex_facets::need(words.len());
    let have = Room {
        keys: keys.len(),
        rows: rows.len(),
        spare: spare.len(),
        counts: counts.len(),
    };
    if !refusal::has_room(need, have) {
        return Err(Refusal::TooShort);
    }
    let k = need.keys;
    let r = need.rows;
    let s = need.spare;
    let c = need.counts;
    cleared(
        dim,
        words,
        signs,
        &mut keys[..k],
        &mut rows[..r],
        &mut spare[..s],
        &mut counts[..c],
    )
}
