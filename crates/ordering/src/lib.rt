// Cell orders. An order gives each cell one word: the cell's vertices in a sequence of their own. It agrees on a facet of two cells if both list the facet's
// vertices in one sequence.
// Follows `CellOrdering`: `try_new`, `is_face_consistent`, `induced_orientation` (crates/simplicial/src/topology/ordering.rs).
//
// What the working lists hold, one phase after the other; the keys' last part begins where the facets' records end. `ordering` ends with the third phase, and
// `induced_orientation` with the fourth:
//   keys, first part   sorted words     -                      facet rows     records of the facets
//   keys, last part    -                words by cell, cells   the same       the same
//   rows               cells            cells                  mates          the cell across each slot
//   spare              first rows       first rows             first rows     whether signs differ across each slot
//   counts             buckets          classes                classes        facets of rows, then the words' signs
#![tactic(auto)]

ghost use Rattle.std.specs.Prelude.{◌≡◌, ◌<◌, length};
ghost use Rattle.refusal.specs.Limits.{many_corners};
ghost use Rattle.lists.specs.Zero.{AllZero};
ghost use Rattle.complex.specs.Cells.{cells_of};
ghost use Rattle.ordering.specs.Promise.{order_need, Preparing, Prepared, Joined, Worked, Wound, Ordering, Induced};

use refusal::{Refusal, Room};

pub mod agreement;

// What a call on an order says: how many cells there are, and whether the order agrees on every facet of two of them.
#[derive(Clone, Copy, Debug, PartialEq, Eq)]
pub enum Ordered {
    Agree(u32),
    Differ(u32),
}

// The cells, the order's words by cell and the mates: how many cells, or 7 or 16.
fn prepare(
    d: usize,
    at: usize,
    words: &[u32],
    order: &[u32],
    keys: &mut [u32],
    rows: &mut [u32],
    spare: &mut [u32],
    counts: &mut [u32],
) -> Result<u32, Refusal>
    requires { Preparing d at words.now keys.old rows.old spare.old counts.old }
    ensures { Prepared d at (length words.now) (cells_of d words.now) order.now keys.new rows.new result }
{
    let len = words.len();
    let m = complex_cells::cells(d, words, keys, rows, spare, counts);
    let fits = ordering_words::arrange(d, m, len, order, &mut keys[at..], rows, spare, counts);
    if !complex_mates::mates(d, m, len, &mut keys[..at], rows, spare, counts) {
        return Err(Refusal::CrowdedFacet);
    }
    if !fits {
        return Err(Refusal::BadOrder);
    }
    Ok(m as u32)
}

// The work of `ordering`, in working lists of just the sizes that are needed. Nothing is promised of them.
fn order_work(
    d: usize,
    at: usize,
    words: &[u32],
    order: &[u32],
    listed: &mut [u32],
    keys: &mut [u32],
    rows: &mut [u32],
    spare: &mut [u32],
    counts: &mut [u32],
) -> Result<Ordered, Refusal>
    requires { Preparing d at words.now keys.old rows.old spare.old counts.old }
    ensures { Worked d words.now order.now result listed.old listed.new }
{
    let m = prepare(d, at, words, order, keys, rows, spare, counts)?;
    let count = m as usize;
    let size = count * (d + 1);
    if listed.len() < size {
        return Err(Refusal::TooShort);
    }
    let end = at + size;
    lists::copy(&keys[at..end], &mut listed[..size]);
    if !agreement::agree(d, count, rows, &keys[at..]) {
        return Ok(Ordered::Differ(m));
    }
    Ok(Ordered::Agree(m))
}

// The work of `ordering`, and then the working lists are all zero.
fn order_cleared(
    d: usize,
    at: usize,
    words: &[u32],
    order: &[u32],
    listed: &mut [u32],
    keys: &mut [u32],
    rows: &mut [u32],
    spare: &mut [u32],
    counts: &mut [u32],
) -> Result<Ordered, Refusal>
    requires { Preparing d at words.now keys.old rows.old spare.old counts.old }
    ensures work { Worked d words.now order.now result listed.old listed.new }
    ensures room { AllZero keys.old keys.new rows.old rows.new spare.old spare.new counts.old
        counts.new }
{
    let said = order_work(d, at, words, order, listed, keys, rows, spare, counts);
    lists::clear_four(keys, rows, spare, counts);
    said
}

// What a call on an order needs of its working lists.
pub fn need(len: usize) -> Room
    requires { len < many_corners }
    ensures { result ≡ order_need len }
{
    let base = complex_facets::need(len);
    Room {
        keys: base.keys + len + len,
        rows: len,
        spare: len,
        counts: len,
    }
}

// The order's words by cell, and whether they agree on every facet of two cells. Refused: 1, 2, 3, 4, 6, 5, then 12 where a working list is too short
// (`order_need`), then 7, 16 where the order's words are not one for each cell, 12 where the result list is too short. A refusal changes no word; from the room's
// test on what is needed of the working lists is zero at the end.
pub fn ordering(
    d: u32,
    words: &[u32],
    order: &[u32],
    listed: &mut [u32],
    keys: &mut [u32],
    rows: &mut [u32],
    spare: &mut [u32],
    counts: &mut [u32],
) -> Result<Ordered, Refusal>
    ensures { Ordering d words.now order.now result listed.old listed.new keys.old keys.new
        rows.old rows.new spare.old spare.new counts.old counts.new }
{
    complex::check_cells(d, words)?;
    let dim = d as usize;
    let len = words.len();
    let base = complex_facets::need(len);
    let at = base.keys;
    let need = need(len);
    let have = Room {
        keys: keys.len(),
        rows: rows.len(),
        spare: spare.len(),
        counts: counts.len(),
    };
    if !refusal::has_room(need, have) {
        return Err(Refusal::TooShort);
    }
    let k = need.keys;
    let r = need.rows;
    let s = need.spare;
    let c = need.counts;
    order_cleared(
        dim,
        at,
        words,
        order,
        listed,
        &mut keys[..k],
        &mut rows[..r],
        &mut spare[..s],
        &mut counts[..c],
    )
}

// The cells, the order's words by cell, and the cell across each facet with whether signs differ there, by the facets' records: how many cells, or 7 or 16.
fn join(
    d: usize,
    at: usize,
    words: &[u32],
    order: &[u32],
    keys: &mut [u32],
    rows: &mut [u32],
    spare: &mut [u32],
    counts: &mut [u32],
) -> Result<u32, Refusal>
    requires { Preparing d at words.now keys.old rows.old spare.old counts.old }
    ensures { Joined d at (length words.now) (cells_of d words.now) order.now keys.new rows.new spare.new result }
{
    let len = words.len();
    let m = complex_cells::cells(d, words, keys, rows, spare, counts);
    let fits = ordering_words::arrange(d, m, len, order, &mut keys[at..], rows, spare, counts);
    if !complex_facets::links(d, m, len, &mut keys[..at], rows, spare, counts) {
        return Err(Refusal::CrowdedFacet);
    }
    if !fits {
        return Err(Refusal::BadOrder);
    }
    Ok(m as u32)
}

// The work of `induced_orientation`, in working lists of just the sizes that are needed. Nothing is promised of them.
fn wound_work(
    d: usize,
    at: usize,
    words: &[u32],
    order: &[u32],
    keys: &mut [u32],
    rows: &mut [u32],
    spare: &mut [u32],
    counts: &mut [u32],
) -> Result<bool, Refusal>
    requires { Preparing d at words.now keys.old rows.old spare.old counts.old }
    ensures { Wound d (cells_of d words.now) order.now result tt }
{
    let m = join(d, at, words, order, keys, rows, spare, counts)?;
    let count = m as usize;
    agreement::word_marks(d + 1, count, &keys[at..], counts);
    Ok(orientation_by::coherent_over(d, count, rows, spare, counts))
}

// The work of `induced_orientation`, and then the working lists are all zero.
fn wound_cleared(
    d: usize,
    at: usize,
    words: &[u32],
    order: &[u32],
    keys: &mut [u32],
    rows: &mut [u32],
    spare: &mut [u32],
    counts: &mut [u32],
) -> Result<bool, Refusal>
    requires { Preparing d at words.now keys.old rows.old spare.old counts.old }
    ensures work { Wound d (cells_of d words.now) order.now result tt }
    ensures room { AllZero keys.old keys.new rows.old rows.new spare.old spare.new counts.old
        counts.new }
{
    let said = wound_work(d, at, words, order, keys, rows, spare, counts);
    lists::clear_four(keys, rows, spare, counts);
    said
}

// Yes exactly if the signs of the order's words are coherent, else no; in dimension 0 always no. Refused: 1, 2, 3, 4, 6, 5, then 12 where a working list is too
// short (`order_need`), then 7, 16 where the order's words are not one for each cell. From the room's test on what is needed of the working lists is zero at the end.
pub fn induced_orientation(
    d: u32,
    words: &[u32],
    order: &[u32],
    keys: &mut [u32],
    rows: &mut [u32],
    spare: &mut [u32],
    counts: &mut [u32],
) -> Result<bool, Refusal>
    ensures { Induced d words.now order.now result keys.old keys.new rows.old rows.new spare.old
        spare.new counts.old counts.new }
{
    complex::check_cells(d, words)?;
    let dim = d as usize;
    let len = words.len();
    let base = complex_facets::need(len);
    let at = base.keys;
    let need = need(len);
    let have = Room {
        keys: keys.len(),
        rows: rows.len(),
        spare: spare.len(),
        counts: counts.len(),
    };
    if !refusal::has_room(need, have) {
        return Err(Refusal::TooShort);
    }
    let k = need.keys;
    let r = need.rows;
    let s = need.spare;
    let c = need.counts;
    wound_cleared(
        dim,
        at,
        words,
        order,
        &mut keys[..k],
        &mut rows[..r],
        &mut spare[..s],
        &mut counts[..c],
    )
}
