// The facet records as a lent list of structs, one for each facet of a cell list: thin functions over lists of records, above the covered call `skeleton::facet_records`,
// which hands out five numbers a facet.
// The port added it: the Rust asks a facet for its cells (`Facet::adjacent_cells`).
#![tactic(auto)]

ghost use Rattle.std.specs.Prelude.{◌≡◌, ◌<◌, ◌≤◌, ◌+◌, ◌*◌, ◌^◌, min, length, set, get_or};
ghost use Rattle.refusal.specs.Told.{count_of};
ghost use Rattle.refusal.specs.Lent.{onto};
ghost use Rattle.complex_records.specs.Record.{no_facet, sign_number, record_at, first_records, lone_of, bordering, found_at};
ghost use Rattle.complex_records.specs.Promise.{Numbers, Records};
ghost use Rattle.complex_records.specs.Work.{Shared};

use refusal::Refusal;

// A facet: its lower cell and the induced sign there, its other cell and the induced sign there, 1 or -1, and whether the words of its cells agree on it. Where it lies in one
// cell the other is 4294967295, the sign there 0, and they agree.
#[derive(Clone, Copy)]
pub struct FacetRec {
    pub cell: u32,
    pub sign: i32,
    pub other: u32,
    pub other_sign: i32,
    pub agree: bool,
}

// The i-th record, or None where there is none.
pub fn read(records: &[FacetRec], i: usize) -> Option<FacetRec>
    ensures { result ≡ found_at records.now i }
{
    records.get(i).copied()
}

// The sign that a mark stands for: 1 for the mark 1, -1 for 2, and 0 where there is none.
fn sign_number(mark: u32) -> i32
    ensures { result ≡ sign_number mark }
{
    if mark == 1 {
        return 1;
    }
    if mark == 2 {
        return -1;
    }
    0
}

// The i-th record of a flat list, five numbers a record.
fn record_at(flat: &[u32], i: usize) -> FacetRec
    requires { i * 5 + 5 ≤ length flat.now }
    ensures { result ≡ record_at flat.now i }
{
    let k = i * 5;
    let cell = flat[k];
    let sign = sign_number(flat[k + 1]);
    let other = flat[k + 2];
    let other_sign = sign_number(flat[k + 3]);
    let agree = flat[k + 4] == 1;
    FacetRec {
        cell,
        sign,
        other,
        other_sign,
        agree,
    }
}

// The i-th record is the flat list's i-th from now on.
fn store_at(records: &mut [FacetRec], i: usize, flat: &[u32])
    requires { (i < length records.old) × (i * 5 + 5 ≤ length flat.now) }
    ensures { records.new ≡ set records.old i (record_at flat.now i) }
{
    records[i] = record_at(flat, i);
}

// The first k records are the flat list's from now on.
fn fill_first(records: &mut [FacetRec], k: usize, flat: &[u32])
    requires { (k ≤ length records.old) × (k * 5 ≤ length flat.now) }
    ensures { records.new ≡ onto (first_records k flat.now) records.old }
{
    for i in 0..k {
        store_at(records, i, flat);
    }
}

// The count of an answer, 0 for a refusal.
fn count_of(said: Result<u32, Refusal>) -> usize
    ensures { result ≡ count_of said }
{
    match said {
        Ok(n) => n as usize,
        Err(_) => 0,
    }
}

// How much of a flat list of `long` numbers is lent on, so that no more than `room` records come to stand there.
fn shared(long: usize, room: usize) -> usize
    ensures { Shared long room result }
{
    if room < long / 5 {
        return room * 5;
    }
    long
}

// The facets, and in `flat` five numbers for each, where there are no more than `room` of them.
fn numbers(
    d: u32,
    words: &[u32],
    room: usize,
    facets: &mut [u32],
    flat: &mut [u32],
    keys: &mut [u32],
    rows: &mut [u32],
    spare: &mut [u32],
    counts: &mut [u32],
) -> Result<u32, Refusal>
    ensures { Numbers d words.now room result facets.old facets.new flat.old flat.new keys.old
        keys.new rows.old rows.new spare.old spare.new counts.old counts.new }
{
    let long = shared(flat.len(), room);
    skeleton::facet_records(
        d,
        words,
        facets,
        &mut flat[..long],
        keys,
        rows,
        spare,
        counts,
    )
}

// The facets of a cell list, d vertices each, five numbers for each in `flat` as `skeleton::facet_records` has them, and a record for each in `records`. Says how many facets.
// Refused as `skeleton::facet_records` is, 12 also where there are fewer records than facets. A refusal changes no facet, no number of `flat` and no record; records past the
// count keep their values.
pub fn records(
    d: u32,
    words: &[u32],
    facets: &mut [u32],
    flat: &mut [u32],
    records: &mut [FacetRec],
    keys: &mut [u32],
    rows: &mut [u32],
    spare: &mut [u32],
    counts: &mut [u32],
) -> Result<u32, Refusal>
    ensures { Records d words.now result facets.old facets.new flat.old flat.new records.old
        records.new keys.old keys.new rows.old rows.new spare.old spare.new
        counts.old counts.new }
{
    let room = records.len();
    let said = numbers(d, words, room, facets, flat, keys, rows, spare, counts);
    let n = count_of(said);
    fill_first(records, n, flat);
    said
}

// One more where the facet lies in one cell.
fn bump(count: usize, r: FacetRec) -> usize
    requires { count + 1 < 2 ^ 64 }
    ensures { result ≡ count + lone_of r }
{
    if r.other == 4294967295 {
        count + 1
    } else {
        count
    }
}

// How many of the first n records, or of all where there are fewer, have a facet that lies in one cell.
pub fn border(records: &[FacetRec], n: usize) -> usize
    ensures { result ≡ bordering (min n (length records.now)) records.now }
{
    let mut count = 0;
    for i in 0..n.min(records.len()) {
        count = bump(count, records[i]);
    }
    count
}
