// Added by the port: cells dropped from a mesh (the Rust builds its complex anew). The words of the other cells stay in their order, and their vertices are numbered anew without gaps, in their old order. Facets and signs of the
// cells that stay are what they were, so nothing that held before is lost.
//
// What the working lists hold, one phase after the other:
//   keys     sorted words     facet rows     sorted words       corners that stay
//   rows     cells            mates          cells that go      old numbers
//   spare    first rows       first rows     words that stay    new numbers
//   counts   buckets          classes        the cell of each word
#![tactic(auto)]

ghost use Rattle.std.specs.Prelude.{◌++◌, map, ◌≡◌, ◌+◌, ◌<◌, ◌≤◌, ◌^◌, eqb, length, get_or, drop};
ghost use Rattle.lists.specs.Words.{marked};
ghost use Rattle.lists.specs.Zero.{AllZero};
ghost use Rattle.complex.specs.Skeleton.{numbers};
ghost use Rattle.complex_cells.specs.WorkMade.{Making};
ghost use Rattle.complex_dropped.specs.Kept.{names_missing};
ghost use Rattle.complex_dropped.specs.Promise.{DropCells};
ghost use Rattle.complex_dropped.specs.Work.{Within, WordCells, Staying, Numbered, Gathering, Gathered, Numbering, Renumbered, Handing, HandedOut, Working, Worked};

use refusal::{Refusal, Room};

// What the call says: how many words stay, a word given twice counted twice, and how many vertices they have.
#[derive(Clone, Copy, Debug, PartialEq, Eq)]
pub struct Dropped {
    pub words: u32,
    pub vertices: u32,
}

// Whether the set names a cell that is not there, where there are m.
fn names_missing(m: usize, gone: &[u32]) -> bool
    ensures { result ≡ names_missing m gone.now }
{
    gone.iter().any(|&cell| m <= cell as usize)
}

// Stores a 1 at each of the places.
fn mark(places: &[u32], marks: &mut [u32])
    requires { Within places.now (length marks.old) }
    ensures { marks.new ≡ marked marks.old places.now }
{
    for &place in places {
        marks[place as usize] = 1;
    }
}

// Writes to `counts` the number of each word's cell.
fn number_words(
    d: usize,
    words: &[u32],
    keys: &mut [u32],
    rows: &mut [u32],
    spare: &mut [u32],
    counts: &mut [u32],
)
    requires { Making d words.now keys.old rows.old spare.old counts.old }
    ensures { WordCells d words.now counts.new }
{
    let n = d + 1;
    let len = words.len();
    let count = len / n;
    lists::copy(words, &mut keys[..len]);
    multiindex::word::sort_words(keys, n, count);
    sorting::sort_rows(keys, n, count, len, rows, spare, counts);
    sorting::distinct(keys, n, count, rows, spare, counts);
}

// Lists those of the first `count` words whose cell is not marked, and says how many there are.
fn list_staying(count: usize, ids: &[u32], marks: &[u32], list: &mut [u32]) -> usize
    requires { Staying count ids.now marks.now list.old }
    ensures { (result ≡ length (numbers (λ k. eqb (get_or marks.now (get_or ids.now k 0) 0) 0) count))
        × (list.new ≡ numbers (λ k. eqb (get_or marks.now (get_or ids.now k 0) 0) 0) count ++ drop result list.old) }
{
    let mut j = 0;
    for k in 0..count {
        let cell = ids[k] as usize;
        if marks[cell] != 0 {
            continue;
        }
        list[j] = k as u32;
        j += 1;
    }
    j
}

// Writes to `keys` the words whose cell does not go, one after the other, and says how many there are.
fn gather_staying(
    d: usize,
    words: &[u32],
    gone: &[u32],
    keys: &mut [u32],
    rows: &mut [u32],
    spare: &mut [u32],
    counts: &mut [u32],
) -> usize
    requires { Gathering d words.now gone.now keys.old rows.old spare.old counts.old }
    ensures { Gathered d words.now gone.now result keys.new }
{
    number_words(d, words, keys, rows, spare, counts);
    rows.fill(0);
    mark(gone, rows);
    let n = d + 1;
    let count = words.len() / n;
    let staying = list_staying(count, counts, rows, spare);
    sorting::gather(words, n, spare, staying, keys);
    staying
}

// Lists the marked places, and replaces each mark by the number of marked places below it. Says how many places are marked.
fn number_marked(marks: &mut [u32], places: &mut [u32]) -> usize
    requires { (length marks.old ≤ length places.old) × (length marks.old < 2 ^ 32) }
    ensures { Numbered marks.old places.old result marks.new places.new }
{
    let mut next: usize = 0;
    for (v, mark) in marks.iter_mut().enumerate() {
        if *mark == 0 {
            continue;
        }
        places[next] = v as u32;
        *mark = next as u32;
        next += 1;
    }
    next
}

// Writes to `spare` the new number of each vertex of the corners and to `rows` the old number for each new one. Says how many there are.
fn renumber(corners: &[u32], rows: &mut [u32], spare: &mut [u32]) -> usize
    requires { Numbering corners.now rows.old spare.old }
    ensures { Renumbered corners.now result rows.new spare.new }
{
    spare.fill(0);
    mark(corners, spare);
    number_marked(spare, rows)
}

// Writes the new number of each corner.
fn rename(numbers: &[u32], corners: &[u32], to: &mut [u32])
    requires { (length to.old ≡ length corners.now) × Within corners.now (length numbers.now) }
    ensures { to.new ≡ map (λ v. get_or numbers.now v 0) corners.now }
{
    for (i, &corner) in corners.iter().enumerate() {
        to[i] = numbers[corner as usize];
    }
}

// Hands out the renamed words and the old numbers; 12 where either list is too short.
fn hand_out(
    staying: usize,
    corners: &[u32],
    numbers: &[u32],
    places: &[u32],
    kept: &mut [u32],
    old: &mut [u32],
) -> Result<Dropped, Refusal>
    requires { Handing staying corners.now numbers.now places.now }
    ensures { HandedOut staying corners.now places.now kept.old old.old result kept.new old.new }
{
    let len = corners.len();
    let vertices = places.len();
    if kept.len() < len {
        return Err(Refusal::TooShort);
    }
    if old.len() < vertices {
        return Err(Refusal::TooShort);
    }
    rename(numbers, corners, &mut kept[..len]);
    lists::copy(places, &mut old[..vertices]);
    Ok(Dropped {
        words: staying as u32,
        vertices: vertices as u32,
    })
}

// The cells that stay, where the set names cells that are there: 2 where none stays, then 12 where a result list is too short.
fn keep_others(
    d: usize,
    words: &[u32],
    gone: &[u32],
    kept: &mut [u32],
    old: &mut [u32],
    keys: &mut [u32],
    rows: &mut [u32],
    spare: &mut [u32],
    counts: &mut [u32],
) -> Result<Dropped, Refusal>
    requires { Gathering d words.now gone.now keys.old rows.old spare.old counts.old }
    ensures { Worked d words.now gone.now result kept.old kept.new old.old old.new }
{
    let staying = gather_staying(d, words, gone, keys, rows, spare, counts);
    if staying == 0 {
        return Err(Refusal::RaggedWords);
    }
    let len = staying * (d + 1);
    let vertices = renumber(&keys[..len], rows, spare);
    hand_out(staying, &keys[..len], spare, &rows[..vertices], kept, old)
}

// The work, in working lists of just the sizes that are needed. Nothing is promised of them.
fn work(
    d: usize,
    words: &[u32],
    gone: &[u32],
    kept: &mut [u32],
    old: &mut [u32],
    keys: &mut [u32],
    rows: &mut [u32],
    spare: &mut [u32],
    counts: &mut [u32],
) -> Result<Dropped, Refusal>
    requires { Working d words.now keys.old rows.old spare.old counts.old }
    ensures { Worked d words.now gone.now result kept.old kept.new old.old old.new }
{
    let m = complex_cells::cells(d, words, keys, rows, spare, counts);
    if !complex_mates::mates(d, m, words.len(), keys, rows, spare, counts) {
        return Err(Refusal::CrowdedFacet);
    }
    if names_missing(m, gone) {
        return Err(Refusal::NoSuchCell);
    }
    keep_others(d, words, gone, kept, old, keys, rows, spare, counts)
}

// The work, and then the working lists are all zero.
fn cleared(
    d: usize,
    words: &[u32],
    gone: &[u32],
    kept: &mut [u32],
    old: &mut [u32],
    keys: &mut [u32],
    rows: &mut [u32],
    spare: &mut [u32],
    counts: &mut [u32],
) -> Result<Dropped, Refusal>
    requires { Working d words.now keys.old rows.old spare.old counts.old }
    ensures work { Worked d words.now gone.now result kept.old kept.new old.old old.new }
    ensures room { AllZero keys.old keys.new rows.old rows.new spare.old spare.new counts.old
        counts.new }
{
    let said = work(d, words, gone, kept, old, keys, rows, spare, counts);
    lists::clear_four(keys, rows, spare, counts);
    said
}

// The words of the cells that do not go, in the order given and by new vertex numbers, and the old number for each new one. `gone` names the cells that go by their places
// in the list of `skeleton::cells`, in any order; a number given twice counts once. Refused: 1, 2, 3, 4, 6, 5, then 12 where a working list is too short
// (`need_of`), then 7, 23 where the set names a cell that is not there, 2 where all cells would go, 12 where a result list is too short. A refusal changes no result;
// from the room's test on what is needed of the working lists is zero at the end.
pub fn drop_cells(
    d: u32,
    words: &[u32],
    gone: &[u32],
    kept: &mut [u32],
    old: &mut [u32],
    keys: &mut [u32],
    rows: &mut [u32],
    spare: &mut [u32],
    counts: &mut [u32],
) -> Result<Dropped, Refusal>
    ensures { DropCells d words.now gone.now result kept.old kept.new old.old old.new keys.old
        keys.new rows.old rows.new spare.old spare.new counts.old counts.new }
{
    complex::check_cells(d, words)?;
    let dim = d as usize;
    let need = complex::need(dim, words.len());
    let have = Room {
        keys: keys.len(),
        rows: rows.len(),
        spare: spare.len(),
        counts: counts.len(),
    };
    if !refusal::has_room(need, have) {
        return Err(Refusal::TooShort);
    }
    let k = need.keys;
    let r = need.rows;
    let s = need.spare;
    let c = need.counts;
    cleared(
        dim,
        words,
        gone,
        kept,
        old,
        &mut keys[..k],
        &mut rows[..r],
        &mut spare[..s],
        &mut counts[..c],
    )
}
