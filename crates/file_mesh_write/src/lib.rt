// Writes a mesh as a file: the checks of its cell list, its working room, 7, the rules of a mesh file, and then the bytes, record by record. The port added it.
//
// A function that writes begins at the start of the list that it is lent, and leaves what comes after its own bytes.
#![tactic(auto)]

ghost use Rattle.std.specs.Prelude.{◌≡◌, [], ◌++◌, true, ◌&&◌, ◌+◌, ◌*◌, ◌/◌, ◌<◌, ◌≤◌, length, eqb};
ghost use Rattle.refusal.specs.Limits.{most_dimension, most_refinement, row_most, many_corners};
ghost use Rattle.refusal.specs.Lent.{onto};
ghost use Rattle.complex.specs.Check.{Passed};
ghost use Rattle.file_bytes.specs.Bytes.{little};
ghost use Rattle.file_mesh.specs.Mesh.{past};
ghost use Rattle.file_mesh.specs.Rules.{no_birth, rise, pairs_fit, weights_of, birth_fits, births_fit, rules};
ghost use Rattle.file_mesh.specs.File.{header_of, word_of, words_of, pairs_of, birth_of, births_of, file_of};
ghost use Rattle.file_mesh_write.specs.Promise.{MeshWritten, mesh_of};
ghost use Rattle.file_mesh_write.specs.Work.{Whole, Handed};

use file_mesh::{BIRTH_KIND, END_KIND, HEAD_KIND, Run, WORD_KIND};
use refusal::Refusal;

// ---- the rules

// Whether the words stand in the order of their cells.
fn words_rise(d: usize, words: &[u32]) -> bool
    requires { d ≤ most_dimension }
    ensures { result ≡ rise d (length words.now / (d + 1)) [] words.now }
{
    let n = d + 1;
    let count = words.len() / n;
    for k in 1..count {
        let at = k * n;
        let before = at - n;
        let end = at + n;
        if !file_mesh::cell_before(&words[before..at], &words[at..end]) {
            return false;
        }
    }
    true
}

// One past the largest of the numbers, 0 where there is none.
#[tactic(auto, using(crate::proofs::Fit::past_rules))]
fn vertices(words: &[u32]) -> usize
    ensures { result ≡ past words.now }
{
    let mut top = 0;
    for &v in words {
        top = top.max(v as usize + 1);
    }
    top
}

// Whether the pairs of a birth have rising vertices below `first` and positive weights that sum to r.
fn pairs_fit(first: u32, r: u32, pairs: &[u32]) -> bool
    ensures { result ≡ (pairs_fit first 0 pairs.now && eqb (weights_of pairs.now) r) }
{
    let mut low: u32 = 0;
    let mut left = r;
    for k in 0..pairs.len() / 2 {
        let v = pairs[k + k];
        let w = pairs[k + k + 1];
        if v < low {
            return false;
        }
        if first <= v {
            return false;
        }
        if w == 0 {
            return false;
        }
        if left < w {
            return false;
        }
        low = v + 1;
        left -= w;
    }
    if pairs.len() % 2 != 0 {
        return false;
    }
    left == 0
}

// Whether a birth with count pairs may follow the births of the run.
fn birth_fits(vertices: usize, run: Run, n: u32, r: u32, count: usize, pairs: &[u32]) -> bool
    requires { length pairs.now ≡ count + count }
    ensures { result ≡ birth_fits vertices run n r count pairs.now }
{
    if !file_mesh::number_fits(vertices, run, n) {
        return false;
    }
    if !file_mesh::refinement_fits(run, r) {
        return false;
    }
    if count < 2 {
        return false;
    }
    let next = file_mesh::run_on(run, n, r);
    pairs_fit(next.first, r, pairs)
}

// Whether the births and their pairs keep the rules.
fn births_fit(vertices: usize, births: &[u32], pairs: &[u32]) -> bool
    ensures { result ≡ births_fit vertices no_birth births.now pairs.now }
{
    let mut run = Run {
        first: 0,
        r: 0,
        next: 0,
    };
    let mut at = 0;
    for k in 0..births.len() / 3 {
        let b = k * 3;
        let n = births[b];
        let r = births[b + 1];
        let count = births[b + 2] as usize;
        let end = at + count + count;
        if pairs.len() < end {
            return false;
        }
        if !birth_fits(vertices, run, n, r, count, &pairs[at..end]) {
            return false;
        }
        run = file_mesh::run_on(run, n, r);
        at = end;
    }
    if births.len() % 3 != 0 {
        return false;
    }
    if at < pairs.len() {
        return false;
    }
    file_mesh::run_ends(vertices, run)
}

// Whether the lists keep the rules of a mesh file.
fn keeps_rules(d: usize, words: &[u32], births: &[u32], pairs: &[u32]) -> bool
    requires { d ≤ most_dimension }
    ensures { result ≡ rules (mesh_of d words.now births.now pairs.now) }
{
    if !words_rise(d, words) {
        return false;
    }
    births_fit(vertices(words), births, pairs)
}

// ---- the bytes

// Writes the opening of a record: its length and its kind.
fn put_opening(len: u32, kind: u32, to: &mut [u8])
    requires { 6 ≤ length to.old }
    ensures { to.new ≡ onto (little 4 len ++ little 2 kind) to.old }
{
    file_bytes::put_four(len, to);
    file_bytes::put_two(kind, &mut to[4..]);
}

// Writes the record with the dimension and the number of cells.
fn put_header(d: u32, count: u32, to: &mut [u8])
    requires { 10 ≤ length to.old }
    ensures { to.new ≡ onto (header_of d count) to.old }
{
    put_opening(6, HEAD_KIND, to);
    file_bytes::put_two(d, &mut to[6..]);
    file_bytes::put_two(count, &mut to[8..]);
}

// Writes the record of a word.
fn put_word(w: &[u32], to: &mut [u8])
    requires { (length w.now ≤ row_most) × (6 + length w.now * 4 ≤ length to.old) }
    ensures { to.new ≡ onto (word_of w.now) to.old }
{
    let len = 2 + w.len() * 4;
    put_opening(len as u32, WORD_KIND, to);
    file_bytes::put_fours(w, &mut to[6..]);
}

// Writes the records of the words.
fn put_words(d: usize, words: &[u32], to: &mut [u8])
    requires { (d ≤ most_dimension) × (length (words_of d (length words.now / (d + 1)) words.now) ≤ length to.old) }
    ensures { to.new ≡ onto (words_of d (length words.now / (d + 1)) words.now) to.old }
{
    let n = d + 1;
    let count = words.len() / n;
    let size = 6 + n * 4;
    let mut at = 0;
    for k in 0..count {
        let from = k * n;
        let end = from + n;
        put_word(&words[from..end], &mut to[at..]);
        at += size;
    }
}

// Writes a pair.
fn put_pair(v: u32, w: u32, to: &mut [u8])
    requires { 6 ≤ length to.old }
    ensures { to.new ≡ onto (little 4 v ++ little 2 w) to.old }
{
    file_bytes::put_four(v, to);
    file_bytes::put_two(w, &mut to[4..]);
}

// Writes the pairs of a birth.
fn put_pairs(count: usize, pairs: &[u32], to: &mut [u8])
    requires { (length pairs.now ≡ count + count) × (count * 6 ≤ length to.old) }
    ensures { to.new ≡ onto (pairs_of pairs.now) to.old }
{
    let mut at = 0;
    for k in 0..count {
        put_pair(pairs[k + k], pairs[k + k + 1], &mut to[at..]);
        at += 6;
    }
}

// Writes the record of a birth.
fn put_birth(n: u32, r: u32, count: usize, pairs: &[u32], to: &mut [u8])
    requires { (count ≤ most_refinement) × (length pairs.now ≡ count + count) × (14 + count * 6 ≤ length to.old) }
    ensures { to.new ≡ onto (birth_of n r count pairs.now) to.old }
{
    let len = 10 + count * 6;
    put_opening(len as u32, BIRTH_KIND, to);
    file_bytes::put_four(n, &mut to[6..]);
    file_bytes::put_two(r, &mut to[10..]);
    file_bytes::put_two(count as u32, &mut to[12..]);
    put_pairs(count, pairs, &mut to[14..]);
}

// Writes the records of the births; says how many bytes that took.
fn put_births(births: &[u32], pairs: &[u32], to: &mut [u8]) -> usize
    requires { Whole births.now pairs.now × (length (births_of births.now pairs.now) ≤ length to.old) }
    ensures used { result ≡ length (births_of births.now pairs.now) }
    ensures list { to.new ≡ onto (births_of births.now pairs.now) to.old }
{
    let mut at = 0;
    let mut p = 0;
    for k in 0..births.len() / 3 {
        let b = k * 3;
        let n = births[b];
        let r = births[b + 1];
        let count = births[b + 2] as usize;
        let end = p + count + count;
        put_birth(n, r, count, &pairs[p..end], &mut to[at..]);
        at = at + 14 + count * 6;
        p = end;
    }
    at
}

// How many bytes the file has.
fn size(d: usize, words: usize, births: usize, pairs: usize) -> usize
    requires { (d ≤ most_dimension) × (words < many_corners) × (births < 2305843009213693952) × (pairs < 2305843009213693952) }
    ensures { result ≡ 16 + words / (d + 1) * (10 + 4 * d) + births / 3 * 14 + pairs / 2 * 6 }
{
    let cells = words / (d + 1);
    16 + cells * (10 + 4 * d) + births / 3 * 14 + pairs / 2 * 6
}

// Writes the file.
fn put_file(d: u32, words: &[u32], births: &[u32], pairs: &[u32], to: &mut [u8])
    requires { Passed d words.now × Whole births.now pairs.now × (length (file_of (mesh_of d words.now births.now pairs.now)) ≤ length to.old) }
    ensures { to.new ≡ onto (file_of (mesh_of d words.now births.now pairs.now)) to.old }
{
    let dim = d as usize;
    let count = words.len() / (dim + 1);
    put_header(d, count as u32, to);
    put_words(dim, words, &mut to[10..]);
    let at = 10 + count * (10 + 4 * dim);
    let used = put_births(births, pairs, &mut to[at..]);
    let end = at + used;
    put_opening(2, END_KIND, &mut to[end..]);
}

// ---- the call

// The file, or 22, or 12.
fn hand_out(
    d: u32,
    words: &[u32],
    births: &[u32],
    pairs: &[u32],
    bytes: &mut [u8],
) -> Result<u32, Refusal>
    requires { Passed d words.now }
    ensures { Handed (mesh_of d words.now births.now pairs.now) result bytes.old bytes.new }
{
    let dim = d as usize;
    if !keeps_rules(dim, words, births, pairs) {
        return Err(Refusal::BadFile);
    }
    let size = size(dim, words.len(), births.len(), pairs.len());
    if bytes.len() < size {
        return Err(Refusal::TooShort);
    }
    put_file(d, words, births, pairs, bytes);
    Ok(size as u32)
}

// Writes the file of a mesh; says how many bytes it has. `births` has a number, an R and a count of pairs for each birth, `pairs` a vertex and a weight for each pair.
// Refused: 1, 2, 3, 4, 6, 5, then 12 where a working list is too short (`need_of`), then 7, 22 where the lists break the rules of a mesh file, 12 where the byte list is
// too short. A refusal writes nothing; from the room's test on what is needed of the working lists is zero at the end.
pub fn write_mesh(
    d: u32,
    words: &[u32],
    births: &[u32],
    pairs: &[u32],
    bytes: &mut [u8],
    keys: &mut [u32],
    rows: &mut [u32],
    spare: &mut [u32],
    counts: &mut [u32],
) -> Result<u32, Refusal>
    ensures { MeshWritten (mesh_of d words.now births.now pairs.now) result bytes.old bytes.new keys.old
        keys.new rows.old rows.new spare.old spare.new counts.old counts.new }
{
    complex_sound::check(d, words, keys, rows, spare, counts)?;
    hand_out(d, words, births, pairs, bytes)
}
