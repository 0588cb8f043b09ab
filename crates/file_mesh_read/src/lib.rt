// Reads a mesh file: its bytes as they come (20, 21, 22), the checks of its cell list, its working room, 7, and then its lists. The port added it.
//
// Every function over the bytes takes them whole, and the place where its part begins. A part that is refused answers its refusal.
#![tactic(auto)]

ghost use Rattle.std.specs.Prelude.{◌≡◌, [], ℕ, ◌+◌, ◌*◌, ◌-◌, ◌<◌, ◌≤◌, Ok, max, length, drop, eqb};
ghost use Rattle.refusal.specs.Limits.{most_dimension, row_most};
ghost use Rattle.multiindex.specs.Sort.{sort_word};
ghost use Rattle.complex.specs.Cells.{comes_before};
ghost use Rattle.complex.specs.Check.{Passed};
ghost use Rattle.file_bytes.specs.Bytes.{fours_of};
ghost use Rattle.file_mesh.specs.Mesh.{past};
ghost use Rattle.file_mesh.specs.Rules.{no_birth};
ghost use Rattle.file_mesh.specs.Read.{opening_from, header_from, word_from, words_from, pairs_from, birth_from, births_read_from, read_file};
ghost use Rattle.file_mesh_read.specs.Promise.{mesh_in, MeshRead};
ghost use Rattle.file_mesh_read.specs.Work.{opened_of, headed_of, Low, refusal_of, weighed, word_before, worded_of, born_of, next_from, next_of, counts_of, scanned_of, words_in, pairs_in, births_in, Taking, Handing};

use file_mesh::{BIRTH_KIND, END_KIND, HEAD_KIND, Run, WORD_KIND};
use refusal::{MOST_CELLS, MOST_CORNERS, MOST_DIMENSION, ROW_MOST, Refusal};

const DIMENSIONS: usize = MOST_DIMENSION as usize;

// What reading a mesh file says: the mesh's dimension and how many cells, births and pairs it has.
#[derive(Clone, Copy, Debug, PartialEq, Eq)]
pub struct Reading {
    pub dimension: u32,
    pub cells: u32,
    pub births: u32,
    pub pairs: u32,
}

// A record's length and kind.
#[derive(Clone, Copy)]
struct Opened {
    len: u32,
    kind: u32,
}

// The dimension and the number of cells.
#[derive(Clone, Copy)]
struct Headed {
    d: u32,
    count: u32,
}

// A birth's number, R and count of pairs.
#[derive(Clone, Copy)]
struct Born {
    number: u32,
    r: u32,
    count: u32,
}

// How many births and pairs a file has.
#[derive(Clone, Copy)]
struct Counts {
    births: usize,
    pairs: usize,
}

// The dimension, and how many cells, births and pairs a file has.
#[derive(Clone, Copy)]
struct Scanned {
    d: u32,
    count: u32,
    births: usize,
    pairs: usize,
}

// ---- the bytes as they come

// The opening of a record.
fn opening(bytes: &[u8], at: usize) -> Result<Opened, Refusal>
    requires { at ≤ length bytes.now }
    ensures { result ≡ opened_of (opening_from (drop at bytes.now)) }
{
    let left = bytes.len() - at;
    if left < 4 {
        return Err(Refusal::FileEnds);
    }
    let len = file_bytes::four(bytes, at);
    if len < 2 {
        return Err(Refusal::BadFile);
    }
    if left < 6 {
        return Err(Refusal::FileEnds);
    }
    let kind = file_bytes::two(bytes, at + 4);
    if kind == 0 {
        return Err(Refusal::UnknownKind);
    }
    if END_KIND < kind {
        return Err(Refusal::UnknownKind);
    }
    Ok(Opened { len, kind })
}

// The first record.
fn header(bytes: &[u8]) -> Result<Headed, Refusal>
    ensures read { result ≡ headed_of (header_from bytes.now) }
    ensures small { Low result }
{
    let Opened { len, kind } = opening(bytes, 0)?;
    if kind != HEAD_KIND {
        return Err(Refusal::BadFile);
    }
    if len != 6 {
        return Err(Refusal::BadFile);
    }
    if bytes.len() < 10 {
        return Err(Refusal::FileEnds);
    }
    Ok(Headed {
        d: file_bytes::two(bytes, 6),
        count: file_bytes::two(bytes, 8),
    })
}

// Whether the cell of the word whose bytes begin at v comes before that of the word at w, n vertices each.
fn in_order(n: usize, bytes: &[u8], v: usize, w: usize) -> bool
    requires { (n ≤ row_most) × (v + n * 4 ≤ length bytes.now) × (w + n * 4 ≤ length bytes.now) }
    ensures { result ≡ comes_before n (sort_word (fours_of n (drop v bytes.now))) (sort_word (fours_of n (drop w bytes.now))) }
{
    let mut a = [0u32; ROW_MOST];
    let mut b = [0u32; ROW_MOST];
    file_bytes::read_fours(&bytes[v..], &mut a[..n]);
    file_bytes::read_fours(&bytes[w..], &mut b[..n]);
    file_mesh::cell_before(&a[..n], &b[..n])
}

// Whether word number k, whose record begins at `at`, is read. The word before it ends where it begins.
fn word_refusal(d: usize, k: usize, bytes: &[u8], at: usize) -> Result<(), Refusal>
    requires { (d < 65536) × (at ≤ length bytes.now) × (k * ((d + 1) * 4) ≤ at) }
    ensures { result ≡ refusal_of (word_from d (word_before d k at bytes.now) (drop at bytes.now)) }
{
    let Opened { len, kind } = opening(bytes, at)?;
    let n = d + 1;
    let size = n * 4;
    if kind != WORD_KIND {
        return Err(Refusal::BadFile);
    }
    if len as usize != 2 + size {
        return Err(Refusal::BadFile);
    }
    if bytes.len() - at < 6 + size {
        return Err(Refusal::FileEnds);
    }
    if k == 0 {
        return Ok(());
    }
    if DIMENSIONS < d {
        return Ok(());
    }
    if in_order(n, bytes, at - size, at + 6) {
        return Ok(());
    }
    Err(Refusal::BadFile)
}

// One past the largest of n numbers of four bytes, at least `top`.
fn vertices(n: usize, bytes: &[u8], top: usize) -> usize
    requires { n * 4 ≤ length bytes.now }
    ensures { result ≡ max top (past (fours_of n bytes.now)) }
{
    let mut most = top;
    for i in 0..n {
        let v = file_bytes::four(bytes, i * 4) as usize;
        most = most.max(v + 1);
    }
    most
}

// One past the last vertex of the words.
fn words(d: usize, count: usize, bytes: &[u8]) -> Result<usize, Refusal>
    requires { (d < 65536) × (count < 65536) × (10 ≤ length bytes.now) }
    ensures { result ≡ worded_of (words_from d count [] (drop 10 bytes.now)) }
{
    let n = d + 1;
    let size = 6 + n * 4;
    let mut top = 0;
    for k in 0..count {
        let at = 10 + k * size;
        word_refusal(d, k, bytes, at)?;
        let from = at + 6;
        top = vertices(n, &bytes[from..], top);
    }
    Ok(top)
}

// Whether the pairs of a birth, which begin at `from`, are read.
fn pairs_refusal(first: u32, r: u32, count: usize, bytes: &[u8], from: usize) -> Result<(), Refusal>
    requires { (count < 65536) × (from ≤ length bytes.now) }
    ensures { result ≡ refusal_of (weighed r (pairs_from first 0 count (drop from bytes.now))) }
{
    let mut low: u32 = 0;
    let mut sum: usize = 0;
    let mut at = from;
    for k in 0..count {
        if bytes.len() - at < 4 {
            return Err(Refusal::FileEnds);
        }
        let v = file_bytes::four(bytes, at);
        if v < low {
            return Err(Refusal::BadFile);
        }
        if first <= v {
            return Err(Refusal::BadFile);
        }
        if bytes.len() - at < 6 {
            return Err(Refusal::FileEnds);
        }
        let w = file_bytes::two(bytes, at + 4);
        if w == 0 {
            return Err(Refusal::BadFile);
        }
        low = v + 1;
        sum += w as usize;
        at += 6;
    }
    if sum != r as usize {
        return Err(Refusal::BadFile);
    }
    Ok(())
}

// A birth, after the opening of its record, whose length is len.
fn birth(vertices: usize, run: Run, len: u32, bytes: &[u8], at: usize) -> Result<Born, Refusal>
    requires { at ≤ length bytes.now }
    ensures { result ≡ born_of (birth_from vertices run len (drop at bytes.now)) }
{
    let left = bytes.len() - at;
    if left < 4 {
        return Err(Refusal::FileEnds);
    }
    let n = file_bytes::four(bytes, at);
    if !file_mesh::number_fits(vertices, run, n) {
        return Err(Refusal::BadFile);
    }
    if left < 6 {
        return Err(Refusal::FileEnds);
    }
    let r = file_bytes::two(bytes, at + 4);
    if !file_mesh::refinement_fits(run, r) {
        return Err(Refusal::BadFile);
    }
    if left < 8 {
        return Err(Refusal::FileEnds);
    }
    let count = file_bytes::two(bytes, at + 6);
    if count < 2 {
        return Err(Refusal::BadFile);
    }
    if len != 10 + count * 6 {
        return Err(Refusal::BadFile);
    }
    let next = file_mesh::run_on(run, n, r);
    pairs_refusal(next.first, r, count as usize, bytes, at + 8)?;
    Ok(Born {
        number: n,
        r,
        count,
    })
}

// The next record after the words: a birth, or the end of the file.
fn birth_or_end(vertices: usize, run: Run, bytes: &[u8], at: usize) -> Result<Option<Born>, Refusal>
    requires { at ≤ length bytes.now }
    ensures { result ≡ next_of (next_from vertices run (drop at bytes.now)) }
{
    let Opened { len, kind } = opening(bytes, at)?;
    if kind == BIRTH_KIND {
        if len < 10 {
            return Err(Refusal::BadFile);
        }
        if (len - 10) % 6 != 0 {
            return Err(Refusal::BadFile);
        }
        return Ok(Some(birth(vertices, run, len, bytes, at + 6)?));
    }
    if kind != END_KIND {
        return Err(Refusal::BadFile);
    }
    if len != 2 {
        return Err(Refusal::BadFile);
    }
    if !file_mesh::run_ends(vertices, run) {
        return Err(Refusal::BadFile);
    }
    if bytes.len() != at + 6 {
        return Err(Refusal::BadFile);
    }
    Ok(None)
}

// The births and the end of the file, which begin at `from`.
fn births(vertices: usize, bytes: &[u8], from: usize) -> Result<Counts, Refusal>
    requires { (10 ≤ from) × (from ≤ length bytes.now) }
    ensures { result ≡ counts_of (births_read_from (length bytes.now) vertices no_birth (drop from bytes.now)) }
{
    let mut run = Run {
        first: 0,
        r: 0,
        next: 0,
    };
    let mut at = from;
    let mut many = 0;
    let mut pairs = 0;
    // Kept: the records are walked up to the one that ends the file; each says where the next begins, so there is no count to go over.
    while let Some(born) = birth_or_end(vertices, run, bytes, at)? {
        run = file_mesh::run_on(run, born.number, born.r);
        at = at + 14 + born.count as usize * 6;
        many += 1;
        pairs += born.count as usize;
    }
    Ok(Counts {
        births: many,
        pairs,
    })
}

// What the bytes say before any check of the cells.
fn scan(bytes: &[u8]) -> Result<Scanned, Refusal>
    ensures { result ≡ scanned_of (read_file bytes.now) }
{
    let Headed { d, count } = header(bytes)?;
    let dim = d as usize;
    let cells = count as usize;
    let vertices = words(dim, cells, bytes)?;
    let from = 10 + cells * (10 + 4 * dim);
    let counts = births(vertices, bytes, from)?;
    Ok(Scanned {
        d,
        count,
        births: counts.births,
        pairs: counts.pairs,
    })
}

// ---- the lists

// Reads the words of an accepted file, n vertices each.
fn list_words(n: usize, count: usize, bytes: &[u8], to: &mut [u32])
    requires { (n ≤ row_most) × (length to.old ≡ count * n) × (10 + count * (6 + n * 4) ≤ length bytes.now) }
    ensures { to.new ≡ words_in n count 10 bytes.now }
{
    let size = 6 + n * 4;
    for k in 0..count {
        let from = 16 + k * size;
        let at = k * n;
        let end = at + n;
        file_bytes::read_fours(&bytes[from..], &mut to[at..end]);
    }
}

// Reads count pairs of a birth, which begin at `from`.
fn list_pairs(count: usize, bytes: &[u8], from: usize, to: &mut [u32])
    requires { (length to.old ≡ count * 2) × (from + count * 6 ≤ length bytes.now) }
    ensures { to.new ≡ pairs_in count from bytes.now }
{
    for k in 0..count {
        let i = k * 2;
        let at = from + k * 6;
        to[i] = file_bytes::four(bytes, at);
        to[i + 1] = file_bytes::two(bytes, at + 4);
    }
}

// Reads many births, in records from `from` on.
fn list_births(many: usize, bytes: &[u8], from: usize, births: &mut [u32], pairs: &mut [u32])
    requires { Taking many from bytes.now births.old pairs.old }
    ensures of_births { births.new ≡ (births_in many from bytes.now).births }
    ensures of_pairs { pairs.new ≡ (births_in many from bytes.now).pairs }
{
    let mut at = from;
    let mut p = 0;
    for k in 0..many {
        let b = k * 3;
        let count = file_bytes::two(bytes, at + 12);
        births[b] = file_bytes::four(bytes, at + 6);
        births[b + 1] = file_bytes::two(bytes, at + 10);
        births[b + 2] = count;
        let own = count as usize;
        let end = p + own * 2;
        list_pairs(own, bytes, at + 14, &mut pairs[p..end]);
        at = at + 14 + own * 6;
        p = end;
    }
}

// ---- the call

// Hands out the lists of an accepted file, whose words are `corners`, or 12.
fn hand_out(
    scanned: Scanned,
    bytes: &[u8],
    corners: &[u32],
    words: &mut [u32],
    births: &mut [u32],
    pairs: &mut [u32],
) -> Result<Reading, Refusal>
    requires { (Ok scanned ≡ scanned_of (read_file bytes.now)) × (corners.now ≡ (mesh_in (read_file bytes.now)).words) × Passed scanned.d corners.now }
    ensures { Handing (mesh_in (read_file bytes.now)) result words.old words.new births.old births.new pairs.old
        pairs.new }
{
    let len = corners.len();
    let b = scanned.births * 3;
    let p = scanned.pairs * 2;
    if words.len() < len {
        return Err(Refusal::TooShort);
    }
    if births.len() < b {
        return Err(Refusal::TooShort);
    }
    if pairs.len() < p {
        return Err(Refusal::TooShort);
    }
    lists::copy(corners, &mut words[..len]);
    let from = 10 + scanned.count as usize * (10 + 4 * scanned.d as usize);
    list_births(
        scanned.births,
        bytes,
        from,
        &mut births[..b],
        &mut pairs[..p],
    );
    Ok(Reading {
        dimension: scanned.d,
        cells: scanned.count,
        births: scanned.births as u32,
        pairs: scanned.pairs as u32,
    })
}

// Hands out the lists of a file that was scanned, after the checks of its cells, whose words are read to `corners`.
fn read_lists(
    scanned: Scanned,
    bytes: &[u8],
    corners: &mut [u32],
    words: &mut [u32],
    births: &mut [u32],
    pairs: &mut [u32],
    keys: &mut [u32],
    rows: &mut [u32],
    spare: &mut [u32],
    counts: &mut [u32],
) -> Result<Reading, Refusal>
    requires { (Ok scanned ≡ scanned_of (read_file bytes.now)) × (scanned.d ≤ most_dimension) × (length corners.old ≡ scanned.count * (scanned.d + 1)) }
    ensures { MeshRead bytes.now result words.old words.new births.old births.new pairs.old pairs.new
        keys.old keys.new rows.old rows.new spare.old spare.new counts.old
        counts.new }
{
    let n = scanned.d as usize + 1;
    list_words(n, scanned.count as usize, bytes, corners);
    complex_sound::check(scanned.d, corners, keys, rows, spare, counts)?;
    hand_out(scanned, bytes, corners, words, births, pairs)
}

// Hands out the lists of a file that was scanned, after the checks of its cells: those that need no words come first.
fn checked(
    scanned: Scanned,
    bytes: &[u8],
    words: &mut [u32],
    births: &mut [u32],
    pairs: &mut [u32],
    keys: &mut [u32],
    rows: &mut [u32],
    spare: &mut [u32],
    counts: &mut [u32],
) -> Result<Reading, Refusal>
    requires { Ok scanned ≡ scanned_of (read_file bytes.now) }
    ensures { MeshRead bytes.now result words.old words.new births.old births.new pairs.old pairs.new
        keys.old keys.new rows.old rows.new spare.old spare.new counts.old
        counts.new }
{
    if MOST_DIMENSION < scanned.d {
        return Err(Refusal::BadDimension);
    }
    let cells = scanned.count as usize;
    if MOST_CELLS < cells {
        return Err(Refusal::TooManyCells);
    }
    let len = cells * (scanned.d as usize + 1);
    let mut corners = [0u32; MOST_CORNERS];
    read_lists(
        scanned,
        bytes,
        &mut corners[..len],
        words,
        births,
        pairs,
        keys,
        rows,
        spare,
        counts,
    )
}

// Reads a mesh file: its words, and for each birth its number, its R and its count of pairs, and for each pair a vertex and a weight; says its dimension and how many
// cells, births and pairs it has. Refused: 20, 21, 22 as the bytes come; then 1, 2, 3, 4, 6, 5; 12 where a working list is too short (`need_of`); 7; 12 where a result
// list is too short. A refusal changes no result; from the room's test on what is needed of the working lists is zero at the end.
pub fn read_mesh(
    bytes: &[u8],
    words: &mut [u32],
    births: &mut [u32],
    pairs: &mut [u32],
    keys: &mut [u32],
    rows: &mut [u32],
    spare: &mut [u32],
    counts: &mut [u32],
) -> Result<Reading, Refusal>
    ensures { MeshRead bytes.now result words.old words.new births.old births.new pairs.old pairs.new
        keys.old keys.new rows.old rows.new spare.old spare.new counts.old
        counts.new }
{
    let scanned = scan(bytes)?;
    checked(
        scanned, bytes, words, births, pairs, keys, rows, spare, counts,
    )
}
