// Facet rows, and which two of them are one facet.
// Follows `Complex::is_pseudomanifold` (crates/simplicial/src/topology/manifold.rs) and `Facet::adjacent_cells`.
#![tactic(auto)]

ghost use Rattle.std.specs.Prelude.{true, false, ◌≡◌, ℕ, suc, ◌+◌, ◌-◌, ◌*◌, ◌/◌, ◌%◌, ◌<◌, ◌≤◌, length, get_or};
ghost use Rattle.lists.specs.Rows.{cut, row};
ghost use Rattle.complex.specs.Facets.{facet_at, slots, Cells, Crowded};
ghost use Rattle.lists.specs.Words.{none};
ghost use Rattle.complex_mates.specs.Table.{Kept, Written, Writing, Grouped, Paired, Three, MateTable, Across, Crossing, Meeting};

// No row: a facet in one cell has no mate.
pub const NONE: u32 = 4294967295;

// Where number j of the facet stands in the cell.
fn kept(skip: usize, j: usize) -> usize
    requires { j < 4294967296 }
    ensures { Kept skip j result }
{
    if j < skip {
        return j;
    }
    j + 1
}

// Writes the cell w without its number at skip.
fn facet(w: &[u32], skip: usize, to: &mut [u32])
    requires { (length w.now ≡ length to.old + 1) × (skip ≤ length to.old) × (length to.old < 4294967296) }
    ensures { to.new ≡ facet_at w.now skip }
{
    for j in 0..to.len() {
        to[j] = w[kept(skip, j)];
    }
}

// How many facets a cell has.
pub fn slots(d: usize) -> usize
    requires { d < 4294967296 }
    ensures { result ≡ slots d }
{
    if d == 0 {
        return 0;
    }
    d + 1
}

// Writes the facets of m cells, k a cell, from the last position dropped to the first.
pub fn facet_rows(d: usize, k: usize, m: usize, cells: &[u32], keys: &mut [u32])
    requires { Writing d k m cells.now keys.old }
    ensures { Written d k cells.now keys.new (m * k) }
{
    let n = d + 1;
    let total = m * k;
    for x in 0..total {
        let from = x / k * n;
        let at = x * d;
        facet(&cells[from..from + n], d - x % k, &mut keys[at..at + d]);
    }
}

// Gives each row its mate; false where a class has three rows.
pub fn pair_up(total: usize, reps: &[u32], ids: &[u32], mates: &mut [u32]) -> bool
    requires grouped { Grouped total reps.now ids.now }
    requires total_in_bounds { (total ≤ length mates.old) × ((x : ℕ) → x < total → get_or mates.old x 0 ≡ none) }
    ensures all { result ≡ true → Paired total ids.now mates.new }
    ensures crowd { result ≡ false → Three total ids.now }
{
    for x in 0..total {
        let first = reps[ids[x] as usize] as usize;
        if first == x {
            continue;
        }
        if mates[first] != NONE {
            return false;
        }
        mates[first] = x as u32;
        mates[x] = first as u32;
    }
    true
}

// The mates of all facet rows of the m cells in `rows` go to `rows`; false where a facet is in three cells.
pub fn mates(
    d: usize,
    m: usize,
    b: usize,
    keys: &mut [u32],
    rows: &mut [u32],
    spare: &mut [u32],
    counts: &mut [u32],
) -> bool
    requires { Meeting d m b keys.old rows.old spare.old counts.old }
    ensures all { result ≡ true → MateTable d (cut (suc d) m rows.old) rows.new }
    ensures crowd { result ≡ false → Crowded d (cut (suc d) m rows.old) }
{
    let k = slots(d);
    facet_rows(d, k, m, rows, keys);
    let total = m * k;
    sorting::sort_rows(keys, d, total, b, rows, spare, counts);
    sorting::distinct(keys, d, total, rows, spare, counts);
    lists::fill(&mut rows[..total], NONE);
    pair_up(total, spare, counts, rows)
}

// The cell across each slot, and whether the signs differ across it.
pub fn across(k: usize, total: usize, mates: &[u32], other: &mut [u32], flip: &mut [u32])
    requires { Crossing k total mates.now other.old flip.old }
    ensures { (x : ℕ) → x < total → Across k mates.now other.new flip.new x }
{
    for x in 0..total {
        if mates[x] == NONE {
            other[x] = NONE;
            flip[x] = 0;
            continue;
        }
        let mate = mates[x] as usize;
        other[x] = (mate / k) as u32;
        flip[x] = ((x % k + mate % k + 1) % 2) as u32;
    }
}
