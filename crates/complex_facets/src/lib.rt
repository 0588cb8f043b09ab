// The facets of cells, each with the one or two cells that it lies in.
// Follows `Complex::facets` and `Complex::boundary_facets` (crates/simplicial/src/topology/complex.rs).
#![tactic(auto)]

ghost use Rattle.std.specs.Prelude.{true, false, ◌++◌, ◌≡◌, ℕ, suc, ◌*◌, ◌<◌, ◌≤◌, eqb, length, get_or, drop, Option, Some, None};
ghost use Rattle.refusal.specs.Limits.{many_corners};
ghost use Rattle.lists.specs.Rows.{cut};
ghost use Rattle.complex.specs.Facets.{Crowded, slots};
ghost use Rattle.complex_mates.specs.Table.{Meeting};
ghost use Rattle.complex_facets.specs.WorkClasses.{Turning, Classed, Found, lone_rows};
ghost use Rattle.complex_facets.specs.WorkSides.{cell_of, place_of, fours, Tabling};
ghost use Rattle.complex_facets.specs.Records.{one_if, record_need};
ghost use Rattle.complex_facets.specs.WorkRecords.{sign_at, fives, Recording};
ghost use Rattle.complex_facets.specs.WorkAcross.{Keeping, Recorded, other_cell, Crossing, Crossed, Linked};

use refusal::Room;

// No row: a facet in one cell has no second row.
const NONE: u32 = 4294967295;

// The mates of the first rows of f classes.
fn others(f: usize, reps: &[u32], mates: &[u32], to: &mut [u32])
    requires { Turning f reps.now mates.now to.old }
    ensures { (i : ℕ) → i < f → get_or to.new i 0 ≡ get_or mates.now (get_or reps.now i 0) 0 }
{
    for i in 0..f {
        to[i] = mates[reps[i] as usize];
    }
}

// One pass over the facet rows of the m cells in `rows`: the rows stand in `keys`, the lowest row of each facet, in order, in `spare`, the facet of each row in `counts`, and
// the mate of each row in `rows`. Says how many facets there are, or None where one lies in three cells.
fn classes(
    d: usize,
    m: usize,
    b: usize,
    keys: &mut [u32],
    rows: &mut [u32],
    spare: &mut [u32],
    counts: &mut [u32],
) -> Option<usize>
    requires { Meeting d m b keys.old rows.old spare.old counts.old }
    ensures all { (f : ℕ) → result ≡ Some f → Classed d m f rows.old keys.new spare.new counts.new rows.new }
    ensures crowd { result ≡ None → Crowded d (cut (suc d) m rows.old) }
{
    let k = complex_mates::slots(d);
    complex_mates::facet_rows(d, k, m, rows, keys);
    let total = m * k;
    sorting::sort_rows(keys, d, total, b, rows, spare, counts);
    let count = sorting::distinct(keys, d, total, rows, spare, counts);
    lists::fill(&mut rows[..total], NONE);
    if !complex_mates::pair_up(total, spare, counts, rows) {
        return None;
    }
    Some(count)
}

// The distinct facets of the m cells in `rows`, in one pass: their rows stand in `keys`, the lowest row of each, in order, in `spare`, the other row, where there is one, in
// `counts`, and the mate of each row in `rows`. Says how many facets there are, or None where one lies in three cells.
pub fn facets(
    d: usize,
    m: usize,
    b: usize,
    keys: &mut [u32],
    rows: &mut [u32],
    spare: &mut [u32],
    counts: &mut [u32],
) -> Option<usize>
    requires { Meeting d m b keys.old rows.old spare.old counts.old × (m * slots d * d < 4294967296) }
    ensures { Found d (cut (suc d) m rows.old) result keys.new spare.new counts.new rows.new }
{
    let f = classes(d, m, b, keys, rows, spare, counts)?;
    others(f, spare, rows, counts);
    Some(f)
}

// The lowest rows of the classes that have no second row, in their order. Says how many there are.
pub fn lone(f: usize, reps: &[u32], others: &[u32], to: &mut [u32]) -> usize
    requires { (f ≤ length reps.now) × (f ≤ length others.now) × (f ≤ length to.old) }
    ensures { (result ≡ length (lone_rows f reps.now others.now)) × (to.new ≡ lone_rows f reps.now others.now ++ drop result to.old) }
{
    let mut j = 0;
    for i in 0..f {
        if others[i] == NONE {
            to[j] = reps[i];
            j += 1;
        }
    }
    j
}

// The cell of a row, k rows a cell, and NONE where there is no row.
fn cell_of(k: usize, x: u32) -> u32
    requires { 0 < k }
    ensures { result ≡ cell_of k x }
{
    if x == NONE {
        return NONE;
    }
    (x as usize / k) as u32
}

// The position that a row drops, and NONE where there is no row.
fn place_of(d: usize, k: usize, x: u32) -> u32
    requires { (0 < k) × (k ≤ suc d) × (d < 4294967295) }
    ensures { result ≡ place_of d k x }
{
    if x == NONE {
        return NONE;
    }
    (d - x as usize % k) as u32
}

// Writes for each of the f facets its cells and the positions dropped there: by its lowest row, and by its other row.
pub fn write_table(d: usize, k: usize, f: usize, reps: &[u32], others: &[u32], table: &mut [u32])
    requires { Tabling d k f reps.now others.now table.old }
    ensures { table.new ≡ fours d k f reps.now others.now ++ drop (f * 4) table.old }
{
    for i in 0..f {
        let x = reps[i];
        let y = others[i];
        let at = i * 4;
        let second = at + 1;
        let third = second + 1;
        let fourth = third + 1;
        table[at] = cell_of(k, x);
        table[second] = place_of(d, k, x);
        table[third] = cell_of(k, y);
        table[fourth] = place_of(d, k, y);
    }
}

// The induced sign of a row's facet, 1 for + where the position that it drops is even, 2 for - where it is odd, and 0 where there is no row.
fn sign_of(d: usize, k: usize, x: u32) -> u32
    requires { (0 < k) × (k ≤ suc d) × (d < 4294967295) }
    ensures { result ≡ sign_at d k x }
{
    if x == NONE {
        return 0;
    }
    let place = d - x as usize % k;
    (place % 2 + 1) as u32
}

// Writes for each of the f facets its lower cell and the induced sign there, its other cell and the induced sign there, and 1: the cells' own words agree on every facet.
pub fn write_records(
    d: usize,
    k: usize,
    f: usize,
    reps: &[u32],
    others: &[u32],
    records: &mut [u32],
)
    requires { Recording d k f reps.now others.now records.old }
    ensures { records.new ≡ fives d k f reps.now others.now ++ drop (f * 5) records.old }
{
    for i in 0..f {
        let x = reps[i];
        let y = others[i];
        let at = i * 5;
        let second = at + 1;
        let third = second + 1;
        let fourth = third + 1;
        let fifth = fourth + 1;
        records[at] = cell_of(k, x);
        records[second] = sign_of(d, k, x);
        records[third] = cell_of(k, y);
        records[fourth] = sign_of(d, k, y);
        records[fifth] = 1;
    }
}

// One record a facet of the m cells in `rows`, from one pass: the records stand in `keys`, and the facet of each row in `counts`. False where a facet lies in three cells.
pub fn records(
    d: usize,
    m: usize,
    b: usize,
    keys: &mut [u32],
    rows: &mut [u32],
    spare: &mut [u32],
    counts: &mut [u32],
) -> bool
    requires { Keeping d m b keys.old rows.old spare.old counts.old }
    ensures all { result ≡ true → Recorded d (cut (suc d) m rows.old) keys.new counts.new }
    ensures crowd { result ≡ false → Crowded d (cut (suc d) m rows.old) }
{
    let Some(f) = classes(d, m, b, keys, rows, spare, counts) else {
        return false;
    };
    others(f, spare, rows, keys);
    lists::copy(&keys[..f], &mut rows[..f]);
    write_records(d, complex_mates::slots(d), f, spare, rows, keys);
    true
}

// The other of a facet's two cells.
fn other_cell(cell: u32, lower: u32, upper: u32) -> u32
    ensures { result ≡ other_cell cell lower upper }
{
    if lower == cell {
        return upper;
    }
    lower
}

// 1 where the induced signs on the two sides are equal, so that the cells' signs must differ; else 0.
fn flip_of(sign: u32, there: u32) -> u32
    ensures { result ≡ one_if (eqb sign there) }
{
    if sign == there {
        return 1;
    }
    0
}

// The cell across each row and whether signs differ across it, read from the record of the row's facet.
pub fn across(
    k: usize,
    total: usize,
    records: &[u32],
    ids: &[u32],
    other: &mut [u32],
    flip: &mut [u32],
)
    requires { Crossing k total records.now ids.now other.old flip.old }
    ensures { (x : ℕ) → x < total → Crossed k records.now ids.now other.new flip.new x }
{
    for x in 0..total {
        let at = ids[x] as usize * 5;
        let second = at + 1;
        let third = second + 1;
        let fourth = third + 1;
        other[x] = other_cell((x / k) as u32, records[at], records[third]);
        flip[x] = flip_of(records[second], records[fourth]);
    }
}

// The cell across each facet row of the m cells in `rows` goes to `rows`, and whether signs differ across it to `spare`, both by the facets' records. False where a facet lies
// in three cells.
pub fn links(
    d: usize,
    m: usize,
    b: usize,
    keys: &mut [u32],
    rows: &mut [u32],
    spare: &mut [u32],
    counts: &mut [u32],
) -> bool
    requires { Keeping d m b keys.old rows.old spare.old counts.old }
    ensures all { result ≡ true → Linked d (cut (suc d) m rows.old) rows.new spare.new }
    ensures crowd { result ≡ false → Crowded d (cut (suc d) m rows.old) }
{
    if !records(d, m, b, keys, rows, spare, counts) {
        return false;
    }
    let k = complex_mates::slots(d);
    across(k, m * k, keys, counts, rows, spare);
    true
}

// What a call that reads the records needs of its working lists, for words with len corners.
pub fn need(len: usize) -> Room
    requires { len < many_corners }
    ensures { result ≡ record_need len }
{
    Room {
        keys: len * 5,
        rows: len,
        spare: len,
        counts: len,
    }
}
