// A caller's own signs, one for each cell: are they coherent? Every facet of two cells is looked at, not only those that a walk would come through.
// Follows `Complex::orient_by` (crates/simplicial/src/topology/orientation.rs).
//
// What the working lists hold, one phase after the other:
//   keys     sorted words     facet rows     records of the facets     records of the facets
//   rows     cells            mates          other rows of the facets  the cell across each slot
//   spare    first rows       first rows     first rows                whether signs differ across each slot
//   counts   buckets          facets of rows facets of rows            the signs, 1 for + and 2 for -
#![tactic(auto)]

ghost use Rattle.std.specs.Prelude.{true, false, ◌≡◌, List, ℕ, ◌<◌, ◌≤◌, length, get_or};
ghost use Rattle.lists.specs.Zero.{AllZero};
ghost use Rattle.complex_mates.specs.Table.{MateTable};
ghost use Rattle.complex_facets.specs.WorkAcross.{Linked};
ghost use Rattle.multiindex.specs.Sign.{Sign};
ghost use Rattle.orientation_signs.specs.WorkFound.{sign_of};
ghost use Rattle.complex.specs.Cells.{cells_of};
ghost use Rattle.orientation.specs.Work.{Furnished};
ghost use Rattle.orientation_by.specs.Promise.{Given, Ends, OrientBy};
ghost use Rattle.orientation_by.specs.WorkTest.{mark_of, AgreesAt, Clash, Looking, Weighing, Testing, Tested, TakenOver};

use refusal::{Refusal, Room};

// Whether the marks across each slot are as its flip says.
fn all_agree(k: usize, total: usize, other: &[u32], flip: &[u32], marks: &[u32]) -> bool
    requires { Looking k total other.now flip.now marks.now }
    ensures all { result ≡ true → (x : ℕ) → x < total → AgreesAt k other.now flip.now marks.now x }
    ensures clash { result ≡ false → Clash k total other.now flip.now marks.now }
{
    for x in 0..total {
        let o = other[x];
        if o == complex_mates::NONE {
            continue;
        }
        let there = marks[o as usize];
        let here = marks[x / k];
        if there != orientation_walk::turn(flip[x], here) {
            return false;
        }
    }
    true
}

// Whether the signs of m cells, 1 for + and 2 for - in `marks`, are coherent by the cell across each facet and whether signs differ there; not in dimension 0.
pub fn coherent_over(d: usize, m: usize, other: &[u32], flip: &[u32], marks: &[u32]) -> bool
    requires { Weighing d m other.now flip.now marks.now }
    ensures { (cs : List (List ℕ)) → length cs ≡ m → Linked d cs other.now flip.now → Tested d cs result (λ c. sign_of (get_or marks.now c 0)) }
{
    if d == 0 {
        return false;
    }
    let k = complex_mates::slots(d);
    all_agree(k, m * k, other, flip, marks)
}

// The same by a table of mates, which stands in `rows`.
pub fn coherent_as(
    d: usize,
    m: usize,
    rows: &[u32],
    keys: &mut [u32],
    spare: &mut [u32],
    marks: &[u32],
) -> bool
    requires { Testing d m rows.now keys.old spare.old marks.now }
    ensures { (cs : List (List ℕ)) → length cs ≡ m → MateTable d cs rows.now → Tested d cs result (λ c. sign_of (get_or marks.now c 0)) }
{
    let k = complex_mates::slots(d);
    complex_mates::across(k, m * k, rows, keys, spare);
    coherent_over(d, m, keys, spare, marks)
}

// 1 for +1, 2 for -1, and 0 for any other number.
fn mark_of(sign: i32) -> u32
    ensures { result ≡ mark_of sign }
{
    if sign == 1 {
        return 1;
    }
    if sign == -1 {
        return 2;
    }
    0
}

// Takes the signs of m cells over as marks; false where they are not one +1 or -1 for each.
fn take_over(m: usize, signs: &[i32], marks: &mut [u32]) -> bool
    requires { m ≤ length marks.old }
    ensures fit { result ≡ true → TakenOver m signs.now marks.new }
    ensures unfit { result ≡ false → (σ : ℕ → Sign) → Given signs.now m σ → ⊥ }
{
    if signs.len() != m {
        return false;
    }
    for c in 0..signs.len() {
        let mark = mark_of(signs[c]);
        if mark == 0 {
            return false;
        }
        marks[c] = mark;
    }
    true
}

// The work, in working lists of just the sizes that are needed. Nothing is promised of them.
fn work(
    d: usize,
    words: &[u32],
    signs: &[i32],
    keys: &mut [u32],
    rows: &mut [u32],
    spare: &mut [u32],
    counts: &mut [u32],
) -> Result<bool, Refusal>
    requires { Furnished d words.now keys.old rows.old spare.old counts.old }
    ensures { Ends d (cells_of d words.now) signs.now result tt }
{
    let m = complex_cells::cells(d, words, keys, rows, spare, counts);
    if !complex_facets::links(d, m, words.len(), keys, rows, spare, counts) {
        return Err(Refusal::CrowdedFacet);
    }
    if !take_over(m, signs, counts) {
        return Err(Refusal::BadSigns);
    }
    Ok(coherent_over(d, m, rows, spare, counts))
}

// The work, and then the working lists are all zero.
fn cleared(
    d: usize,
    words: &[u32],
    signs: &[i32],
    keys: &mut [u32],
    rows: &mut [u32],
    spare: &mut [u32],
    counts: &mut [u32],
) -> Result<bool, Refusal>
    requires { Furnished d words.now keys.old rows.old spare.old counts.old }
    ensures work { Ends d (cells_of d words.now) signs.now result tt }
    ensures room { AllZero keys.old keys.new rows.old rows.new spare.old spare.new counts.old
        counts.new }
{
    let said = work(d, words, signs, keys, rows, spare, counts);
    lists::clear_four(keys, rows, spare, counts);
    said
}

// Yes exactly if the signs are coherent, else no; in dimension 0 always no. Refused: 1, 2, 3, 4, 6, 5, then 12 where a working list is too short (`record_need`), then 7,
// 14 where the sign list is not one +1 or -1 for each cell. From the room's test on what is needed of the working lists is zero at the end.
pub fn orient_by(
    d: u32,
    words: &[u32],
    signs: &[i32],
    keys: &mut [u32],
    rows: &mut [u32],
    spare: &mut [u32],
    counts: &mut [u32],
) -> Result<bool, Refusal>
    ensures { OrientBy d words.now signs.now result keys.old keys.new rows.old rows.new spare.old
        spare.new counts.old counts.new }
{
    complex::check_cells(d, words)?;
    let dim = d as usize;
    let need = complex_facets::need(words.len());
    let have = Room {
        keys: keys.len(),
        rows: rows.len(),
        spare: spare.len(),
        counts: counts.len(),
    };
    if !refusal::has_room(need, have) {
        return Err(Refusal::TooShort);
    }
    let k = need.keys;
    let r = need.rows;
    let s = need.spare;
    let c = need.counts;
    cleared(
        dim,
        words,
        signs,
        &mut keys[..k],
        &mut rows[..r],
        &mut spare[..s],
        &mut counts[..c],
    )
}
