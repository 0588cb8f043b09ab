// The facets of a cell list with an order, one record for each: what `skeleton::facet_records` hands out, and whether the order's words agree on the facet.
// The port added it: the Rust asks a facet for its cells (`Facet::adjacent_cells`) and works out signs and agreement where they are needed.
//
// What the working lists hold, one phase after the other; the keys' last part begins where the facets' records would end:
//   keys, first part   sorted words     -                      facet rows
//   keys, last part    -                words by cell, cells   the same
//   rows               cells            cells                  mates
//   spare              first rows       first rows             first rows
//   counts             buckets          classes                other rows of the facets
#![tactic(auto)]

ghost use Rattle.std.specs.Prelude.{◌≡◌, get_or};
ghost use Rattle.lists.specs.Zero.{AllZero};
ghost use Rattle.ordering.specs.Promise.{Preparing};
ghost use Rattle.ordering_records.specs.Promise.{RecordsWith};
ghost use Rattle.ordering_records.specs.Work.{agree_at, tagged, Asking, Tagging, Handing, WorkedWith};

use refusal::{Refusal, Room};

// No row: a facet in one cell has no other row.
const NONE: u32 = 4294967295;

// Whether the words of the cells of rows x and y agree on their facet, 1 for yes and 0 for no; yes where there is no row y.
fn agree_at(d: usize, k: usize, m: usize, list: &[u32], x: u32, y: u32) -> u32
    requires { Asking d k m list.now x y }
    ensures { result ≡ agree_at d k m list.now x y }
{
    if y == NONE {
        return 1;
    }
    if ordering::agreement::row_agrees(d, k, m, list, x as usize, y as usize) {
        return 1;
    }
    0
}

// Sets the last number of each of f records: whether the words of its cells agree on the facet. `list` has the words by cell, and behind them the cells.
fn tag(
    d: usize,
    k: usize,
    m: usize,
    list: &[u32],
    f: usize,
    reps: &[u32],
    others: &[u32],
    records: &mut [u32],
)
    requires { Tagging d k m list.now f reps.now others.now records.old }
    ensures { records.new ≡ tagged (λ i. agree_at d k m list.now (get_or reps.now i 0) (get_or others.now i 0)) f records.old }
{
    for i in 0..f {
        let last = i * 5 + 4;
        records[last] = agree_at(d, k, m, list, reps[i], others[i]);
    }
}

// Hands out f facets and their records, from the facet rows in the first part of `keys`, and the words by cell and the cells in the last.
fn hand_out(
    d: usize,
    at: usize,
    m: usize,
    f: usize,
    keys: &[u32],
    reps: &[u32],
    others: &[u32],
    facets: &mut [u32],
    records: &mut [u32],
) -> Result<u32, Refusal>
    requires { Handing d at m f keys.now reps.now others.now }
    ensures { (w : Handing d at m f keys.now reps.now others.now) → WorkedWith d w.ws w.order result facets.old
        facets.new records.old records.new }
{
    if facets.len() < f * d {
        return Err(Refusal::TooShort);
    }
    if records.len() < f * 5 {
        return Err(Refusal::TooShort);
    }
    sorting::gather(&keys[..at], d, reps, f, facets);
    let k = complex_mates::slots(d);
    complex_facets::write_records(d, k, f, reps, others, records);
    tag(d, k, m, &keys[at..], f, reps, others, records);
    Ok(f as u32)
}

// The facets and their records, or 7 or 16, in working lists of just the sizes that are needed. Nothing is promised of these.
fn work(
    d: usize,
    at: usize,
    words: &[u32],
    order: &[u32],
    facets: &mut [u32],
    records: &mut [u32],
    keys: &mut [u32],
    rows: &mut [u32],
    spare: &mut [u32],
    counts: &mut [u32],
) -> Result<u32, Refusal>
    requires { Preparing d at words.now keys.old rows.old spare.old counts.old }
    ensures { WorkedWith d words.now order.now result facets.old facets.new records.old records.new }
{
    let len = words.len();
    let m = complex_cells::cells(d, words, keys, rows, spare, counts);
    let fits = ordering_words::arrange(d, m, len, order, &mut keys[at..], rows, spare, counts);
    let Some(f) = complex_facets::facets(d, m, len, &mut keys[..at], rows, spare, counts) else {
        return Err(Refusal::CrowdedFacet);
    };
    if !fits {
        return Err(Refusal::BadOrder);
    }
    hand_out(d, at, m, f, keys, spare, counts, facets, records)
}

// The work, and then the working lists are all zero.
fn cleared(
    d: usize,
    at: usize,
    words: &[u32],
    order: &[u32],
    facets: &mut [u32],
    records: &mut [u32],
    keys: &mut [u32],
    rows: &mut [u32],
    spare: &mut [u32],
    counts: &mut [u32],
) -> Result<u32, Refusal>
    requires { Preparing d at words.now keys.old rows.old spare.old counts.old }
    ensures work { WorkedWith d words.now order.now result facets.old facets.new records.old records.new }
    ensures room { AllZero keys.old keys.new rows.old rows.new spare.old spare.new counts.old
        counts.new }
{
    let said = work(
        d, at, words, order, facets, records, keys, rows, spare, counts,
    );
    lists::clear_four(keys, rows, spare, counts);
    said
}

// The facets, d vertices each, and for each a record of five numbers as `skeleton::facet_records` has it, but the last is 1 only where the order's words of its cells list the
// facet's vertices in one sequence, else 0; it is 1 where the facet lies in one cell. Says how many facets. Refused: 1, 2, 3, 4, 6, 5, then 12 where a working list is too short
// (`order_need`), then 7, 16 where the order's words are not one for each cell, 12 where a result list is too short. A refusal changes no facet and no record; from the room's
// test on what is needed of the working lists is zero at the end.
pub fn facet_records_with(
    d: u32,
    words: &[u32],
    order: &[u32],
    facets: &mut [u32],
    records: &mut [u32],
    keys: &mut [u32],
    rows: &mut [u32],
    spare: &mut [u32],
    counts: &mut [u32],
) -> Result<u32, Refusal>
    ensures { RecordsWith d words.now order.now result facets.old facets.new records.old records.new
        keys.old keys.new rows.old rows.new spare.old spare.new counts.old
        counts.new }
{
    complex::check_cells(d, words)?;
    let dim = d as usize;
    let len = words.len();
    let base = complex_facets::need(len);
    let at = base.keys;
    let need = ordering::need(len);
    let have = Room {
        keys: keys.len(),
        rows: rows.len(),
        spare: spare.len(),
        counts: counts.len(),
    };
    if !refusal::has_room(need, have) {
        return Err(Refusal::TooShort);
    }
    let k = need.keys;
    let r = need.rows;
    let s = need.spare;
    let c = need.counts;
    cleared(
        dim,
        at,
        words,
        order,
        facets,
        records,
        &mut keys[..k],
        &mut rows[..r],
        &mut spare[..s],
        &mut counts[..c],
    )
}
