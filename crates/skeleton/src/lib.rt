// The cells, the edges and the border of a cell list, and its facets with the cells that they lie in: each a list in colex order without repeats.
// Follows `Complex::cells`, `edges`, `boundary_facets` and `facets` (crates/simplicial/src/topology/complex.rs).
//
// What the working lists hold, one phase after the other:
//   keys     sorted words     facet rows     facet rows, or pairs
//   rows     cells            mates          rows of the border, or cells, then row numbers
//   spare    first rows       first rows     first rows
//   counts   buckets          classes        other rows of the facets, or classes
#![tactic(auto)]

ghost use Rattle.std.specs.Prelude.{List, ◌++◌, ◌≡◌, ℕ, suc, ◌*◌, ◌<◌, ◌≤◌, length, take, drop};
ghost use Rattle.refusal.specs.Limits.{most_dimension, many_corners};
ghost use Rattle.lists.specs.Rows.{flat};
ghost use Rattle.lists.specs.Zero.{AllZero};
ghost use Rattle.sorting.specs.Gather.{rows_of};
ghost use Rattle.complex.specs.Room.{need_of};
ghost use Rattle.complex.specs.Cells.{cells_of};
ghost use Rattle.complex.specs.Skeleton.{edges_of, border_of};
ghost use Rattle.complex_cells.specs.WorkNamed.{Naming};
ghost use Rattle.skeleton.specs.Promise.{Listed, BothListed, FacetsListed, RecordsListed};
ghost use Rattle.skeleton.specs.Parts.{edge_need, need_for, words_for, width_of, beside_for, beside_as};
ghost use Rattle.skeleton.specs.Work.{Working, Sound, Handed, Worked, Besides, WorkedBoth};

use refusal::{Refusal, Room};

// Which list of words is asked for.
#[derive(Clone, Copy)]
pub(crate) enum Part {
    Cells,
    Edges,
    Border,
}

// What stands beside the facets: their cells with the positions dropped there, or with the induced signs.
#[derive(Clone, Copy)]
pub(crate) enum Beside {
    Places,
    Signs,
}

// Whether no facet lies in three or more cells.
pub fn sound(
    d: usize,
    words: &[u32],
    keys: &mut [u32],
    rows: &mut [u32],
    spare: &mut [u32],
    counts: &mut [u32],
) -> bool
    requires { Working (need_of d (length words.now)) d words.now keys.old rows.old spare.old counts.old }
    ensures { Sound d words.now result }
{
    let m = complex_cells::cells(d, words, keys, rows, spare, counts);
    complex_mates::mates(d, m, words.len(), keys, rows, spare, counts)
}

// Hands out a flat list of m words.
pub fn hand_out(m: usize, from: &[u32], out: &mut [u32]) -> Result<u32, Refusal>
    requires { m < 4294967296 }
    ensures { (ws : List (List ℕ)) → flat ws ≡ from.now → length ws ≡ m → Handed ws result out.old out.new }
{
    let long = from.len();
    if out.len() < long {
        return Err(Refusal::TooShort);
    }
    lists::copy(from, &mut out[..long]);
    Ok(m as u32)
}

// Hands out the rows of `keys` that the first m of `list` name.
fn hand_rows(
    stride: usize,
    m: usize,
    keys: &[u32],
    list: &[u32],
    out: &mut [u32],
) -> Result<u32, Refusal>
    requires { Naming stride m keys.now list.now }
    ensures { (ws : List (List ℕ)) → flat ws ≡ rows_of keys.now stride (take m list.now) → length ws ≡ m → Handed ws result out.old out.new }
{
    if out.len() < m * stride {
        return Err(Refusal::TooShort);
    }
    sorting::gather(keys, stride, list, m, out);
    Ok(m as u32)
}

// Hands out the cells, or 7.
fn list_cells(
    d: usize,
    words: &[u32],
    out: &mut [u32],
    keys: &mut [u32],
    rows: &mut [u32],
    spare: &mut [u32],
    counts: &mut [u32],
) -> Result<u32, Refusal>
    requires { Working (need_of d (length words.now)) d words.now keys.old rows.old spare.old counts.old }
    ensures { Worked d words.now (cells_of d words.now) result out.old out.new }
{
    if !sound(d, words, keys, rows, spare, counts) {
        return Err(Refusal::CrowdedFacet);
    }
    let m = complex_cells::cells(d, words, keys, rows, spare, counts);
    let long = m * (d + 1);
    hand_out(m, &rows[..long], out)
}

// Hands out the edges, or 7.
fn list_edges(
    d: usize,
    words: &[u32],
    out: &mut [u32],
    keys: &mut [u32],
    rows: &mut [u32],
    spare: &mut [u32],
    counts: &mut [u32],
) -> Result<u32, Refusal>
    requires { Working (edge_need d (length words.now)) d words.now keys.old rows.old spare.old counts.old }
    ensures { Worked d words.now (edges_of (cells_of d words.now)) result out.old out.new }
{
    if !sound(d, words, keys, rows, spare, counts) {
        return Err(Refusal::CrowdedFacet);
    }
    let m = complex_cells::cells(d, words, keys, rows, spare, counts);
    let e = complex_edges::edges(d, m, words.len(), keys, rows, spare, counts);
    hand_rows(2, e, keys, spare, out)
}

// Hands out the facets in one cell, or 7.
fn list_border(
    d: usize,
    words: &[u32],
    out: &mut [u32],
    keys: &mut [u32],
    rows: &mut [u32],
    spare: &mut [u32],
    counts: &mut [u32],
) -> Result<u32, Refusal>
    requires { Working (need_of d (length words.now)) d words.now keys.old rows.old spare.old counts.old }
    ensures { Worked d words.now (border_of d (cells_of d words.now)) result out.old out.new }
{
    let m = complex_cells::cells(d, words, keys, rows, spare, counts);
    let Some(f) = complex_facets::facets(d, m, words.len(), keys, rows, spare, counts) else {
        return Err(Refusal::CrowdedFacet);
    };
    let j = complex_facets::lone(f, spare, counts, rows);
    hand_rows(d, j, keys, rows, out)
}

// How many numbers stand beside a facet.
fn width(beside: Beside) -> usize
    ensures { result ≡ width_of beside }
{
    match beside {
        Beside::Places => 4,
        Beside::Signs => 5,
    }
}

// Writes what stands beside each of the f facets, by its lowest row and by its other row.
fn write_beside(
    beside: Beside,
    d: usize,
    k: usize,
    f: usize,
    reps: &[u32],
    others: &[u32],
    list: &mut [u32],
)
    requires { Besides beside d k f reps.now others.now list.old }
    ensures { list.new ≡ beside_as beside d k f reps.now others.now ++ drop (f * width_of beside) list.old }
{
    match beside {
        Beside::Places => complex_facets::write_table(d, k, f, reps, others, list),
        Beside::Signs => complex_facets::write_records(d, k, f, reps, others, list),
    }
}

// Hands out the facets and what stands beside them, or 7, in working lists of just the sizes that are needed. Nothing is promised of these.
fn list_facets(
    beside: Beside,
    d: usize,
    words: &[u32],
    out: &mut [u32],
    list: &mut [u32],
    keys: &mut [u32],
    rows: &mut [u32],
    spare: &mut [u32],
    counts: &mut [u32],
) -> Result<u32, Refusal>
    requires { Working (need_of d (length words.now)) d words.now keys.old rows.old spare.old counts.old }
    ensures { WorkedBoth (beside_for beside d (cells_of d words.now)) d words.now result out.old out.new list.old
        list.new }
{
    let m = complex_cells::cells(d, words, keys, rows, spare, counts);
    let Some(f) = complex_facets::facets(d, m, words.len(), keys, rows, spare, counts) else {
        return Err(Refusal::CrowdedFacet);
    };
    if out.len() < f * d {
        return Err(Refusal::TooShort);
    }
    if list.len() < f * width(beside) {
        return Err(Refusal::TooShort);
    }
    sorting::gather(keys, d, spare, f, out);
    write_beside(beside, d, complex_mates::slots(d), f, spare, counts, list);
    Ok(f as u32)
}

// What the call for a part needs of its working lists.
fn need(part: Part, d: usize, len: usize) -> Room
    requires { (d ≤ most_dimension) × (len < many_corners) }
    ensures { result ≡ need_for part d len }
{
    let plain = complex::need(d, len);
    match part {
        Part::Cells => plain,
        Part::Edges => {
            let k = plain.keys;
            Room {
                keys: k * 2,
                rows: k,
                spare: k,
                counts: k,
            }
        }
        Part::Border => plain,
    }
}

// The part asked for, or 7, in working lists of just the sizes that are needed. Nothing is promised of them.
fn work(
    part: Part,
    d: usize,
    words: &[u32],
    out: &mut [u32],
    keys: &mut [u32],
    rows: &mut [u32],
    spare: &mut [u32],
    counts: &mut [u32],
) -> Result<u32, Refusal>
    requires { Working (need_for part d (length words.now)) d words.now keys.old rows.old spare.old counts.old }
    ensures { Worked d words.now (words_for part d (cells_of d words.now)) result out.old out.new }
{
    match part {
        Part::Cells => list_cells(d, words, out, keys, rows, spare, counts),
        Part::Edges => list_edges(d, words, out, keys, rows, spare, counts),
        Part::Border => list_border(d, words, out, keys, rows, spare, counts),
    }
}

// The work, and then the working lists are all zero.
fn cleared(
    part: Part,
    d: usize,
    words: &[u32],
    out: &mut [u32],
    keys: &mut [u32],
    rows: &mut [u32],
    spare: &mut [u32],
    counts: &mut [u32],
) -> Result<u32, Refusal>
    requires { Working (need_for part d (length words.now)) d words.now keys.old rows.old spare.old counts.old }
    ensures work { Worked d words.now (words_for part d (cells_of d words.now)) result out.old out.new }
    ensures room { AllZero keys.old keys.new rows.old rows.new spare.old spare.new counts.old
        counts.new }
{
    let said = work(part, d, words, out, keys, rows, spare, counts);
    lists::clear_four(keys, rows, spare, counts);
    said
}

// The part asked for, with the checks of a cell list before it.
fn checked(
    part: Part,
    d: u32,
    words: &[u32],
    out: &mut [u32],
    keys: &mut [u32],
    rows: &mut [u32],
    spare: &mut [u32],
    counts: &mut [u32],
) -> Result<u32, Refusal>
    ensures { Listed (need_for part d (length words.now)) (words_for part d (cells_of d words.now)) d words.now result out.old
        out.new keys.old keys.new rows.old rows.new spare.old spare.new
        counts.old counts.new }
{
    complex::check_cells(d, words)?;
    let dim = d as usize;
    let need = need(part, dim, words.len());
    let have = Room {
        keys: keys.len(),
        rows: rows.len(),
        spare: spare.len(),
        counts: counts.len(),
    };
    if !refusal::has_room(need, have) {
        return Err(Refusal::TooShort);
    }
    let k = need.keys;
    let r = need.rows;
    let s = need.spare;
    let c = need.counts;
    cleared(
        part,
        dim,
        words,
        out,
        &mut keys[..k],
        &mut rows[..r],
        &mut spare[..s],
        &mut counts[..c],
    )
}

// The cells, d+1 vertices each; says how many. Refused: 1, 2, 3, 4, 6, 5, then 12 where a working list is too short (`need_of`), then 7, 12 where the result list is too
// short. A refusal changes no result; from the room's test on what is needed of the working lists is zero at the end.
pub fn cells(
    d: u32,
    words: &[u32],
    cells: &mut [u32],
    keys: &mut [u32],
    rows: &mut [u32],
    spare: &mut [u32],
    counts: &mut [u32],
) -> Result<u32, Refusal>
    ensures { Listed (need_of d (length words.now)) (cells_of d words.now) d words.now result cells.old cells.new
        keys.old keys.new rows.old rows.new spare.old spare.new counts.old
        counts.new }
{
    checked(Part::Cells, d, words, cells, keys, rows, spare, counts)
}

// The edges, two vertices each, the lower first; says how many. Refused as `cells` is, with its own need of working room (`edge_need`).
pub fn edges(
    d: u32,
    words: &[u32],
    edges: &mut [u32],
    keys: &mut [u32],
    rows: &mut [u32],
    spare: &mut [u32],
    counts: &mut [u32],
) -> Result<u32, Refusal>
    ensures { Listed (edge_need d (length words.now)) (edges_of (cells_of d words.now)) d words.now result edges.old
        edges.new keys.old keys.new rows.old rows.new spare.old spare.new
        counts.old counts.new }
{
    checked(Part::Edges, d, words, edges, keys, rows, spare, counts)
}

// The facets in one cell, d vertices each; says how many. Refused as `cells` is.
pub fn border(
    d: u32,
    words: &[u32],
    border: &mut [u32],
    keys: &mut [u32],
    rows: &mut [u32],
    spare: &mut [u32],
    counts: &mut [u32],
) -> Result<u32, Refusal>
    ensures { Listed (need_of d (length words.now)) (border_of d (cells_of d words.now)) d words.now result border.old
        border.new keys.old keys.new rows.old rows.new spare.old spare.new
        counts.old counts.new }
{
    checked(Part::Border, d, words, border, keys, rows, spare, counts)
}

// The facets and what stands beside them, and then the working lists are all zero.
fn facet_cleared(
    beside: Beside,
    d: usize,
    words: &[u32],
    out: &mut [u32],
    list: &mut [u32],
    keys: &mut [u32],
    rows: &mut [u32],
    spare: &mut [u32],
    counts: &mut [u32],
) -> Result<u32, Refusal>
    requires { Working (need_of d (length words.now)) d words.now keys.old rows.old spare.old counts.old }
    ensures work { WorkedBoth (beside_for beside d (cells_of d words.now)) d words.now result out.old out.new list.old
        list.new }
    ensures room { AllZero keys.old keys.new rows.old rows.new spare.old spare.new counts.old
        counts.new }
{
    let said = list_facets(beside, d, words, out, list, keys, rows, spare, counts);
    lists::clear_four(keys, rows, spare, counts);
    said
}

// The facets and what stands beside them, with the checks of a cell list before.
fn checked_facets(
    beside: Beside,
    d: u32,
    words: &[u32],
    facets: &mut [u32],
    list: &mut [u32],
    keys: &mut [u32],
    rows: &mut [u32],
    spare: &mut [u32],
    counts: &mut [u32],
) -> Result<u32, Refusal>
    ensures { BothListed (beside_for beside d (cells_of d words.now)) d words.now result facets.old facets.new list.old
        list.new keys.old keys.new rows.old rows.new spare.old spare.new
        counts.old counts.new }
{
    complex::check_cells(d, words)?;
    let dim = d as usize;
    let need = complex::need(dim, words.len());
    let have = Room {
        keys: keys.len(),
        rows: rows.len(),
        spare: spare.len(),
        counts: counts.len(),
    };
    if !refusal::has_room(need, have) {
        return Err(Refusal::TooShort);
    }
    let k = need.keys;
    let r = need.rows;
    let s = need.spare;
    let c = need.counts;
    facet_cleared(
        beside,
        dim,
        words,
        facets,
        list,
        &mut keys[..k],
        &mut rows[..r],
        &mut spare[..s],
        &mut counts[..c],
    )
}

// The facets, d vertices each, and for each four numbers in `table`: its lower cell, the position dropped there, its other cell and the position dropped there, or
// 4,294,967,295 twice where it lies in one cell. Says how many facets. Refused as `cells` is, 12 also where the table is too short.
pub fn facets(
    d: u32,
    words: &[u32],
    facets: &mut [u32],
    table: &mut [u32],
    keys: &mut [u32],
    rows: &mut [u32],
    spare: &mut [u32],
    counts: &mut [u32],
) -> Result<u32, Refusal>
    ensures { FacetsListed d words.now result facets.old facets.new table.old table.new keys.old
        keys.new rows.old rows.new spare.old spare.new counts.old counts.new }
{
    checked_facets(
        Beside::Places,
        d,
        words,
        facets,
        table,
        keys,
        rows,
        spare,
        counts,
    )
}

// The facets, d vertices each, and for each a record of five numbers in `records`: its lower cell and the induced sign there, its other cell and the induced sign there, 1 for
// + and 2 for -, or 4,294,967,295 and 0 where it lies in one cell; and 1 where its cells' words agree on it, which sorted cells always do. Says how many facets. Refused as
// `cells` is, 12 also where the list of records is too short.
pub fn facet_records(
    d: u32,
    words: &[u32],
    facets: &mut [u32],
    records: &mut [u32],
    keys: &mut [u32],
    rows: &mut [u32],
    spare: &mut [u32],
    counts: &mut [u32],
) -> Result<u32, Refusal>
    ensures { RecordsListed d words.now result facets.old facets.new records.old records.new keys.old
        keys.new rows.old rows.new spare.old spare.new counts.old counts.new }
{
    checked_facets(
        Beside::Signs,
        d,
        words,
        facets,
        records,
        keys,
        rows,
        spare,
        counts,
    )
}
