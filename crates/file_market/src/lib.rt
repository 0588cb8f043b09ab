// Added by the port: a boundary operator as a Matrix Market file, which tools of linear algebra read: one line for each entry, rows and columns counted from one.
//
// The entries are read where complex_boundary has them: `counts` holds the facets of the faces of dimension k, and sign and coface of an entry follow from its
// number. The file is measured by writing it into no bytes at all, and then written by the same calls (file_writing).
#![tactic(auto)]

ghost use Rattle.std.specs.Prelude.{List, [], ◌∷◌, ◌++◌, ◌≡◌, ℕ, ◌+◌, ◌*◌, ◌<◌, ◌≤◌, length};
ghost use Rattle.lists.specs.Zero.{AllZero};
ghost use Rattle.multiindex.specs.Sign.{induced, sign_number};
ghost use Rattle.complex.specs.Cells.{cells_of};
ghost use Rattle.skeleton.specs.Work.{Working};
ghost use Rattle.complex_faces.specs.Entries.{Entry};
ghost use Rattle.text.specs.Decimal.{decimal};
ghost use Rattle.file_writing.specs.Wrote.{farthest, Wrote};
ghost use Rattle.complex_boundary.specs.Need.{face_need};
ghost use Rattle.complex_boundary.specs.Work.{EntryLists, Reaching};
ghost use Rattle.file_market.specs.File.{head_word, followed_by, line_of_three, signed_of, matrix_file, market_of};
ghost use Rattle.file_market.specs.Promise.{Marketed};
ghost use Rattle.file_market.specs.Work.{Numbered, line_at, lines_below, FileHanded, FileWorked};

use refusal::{Refusal, Room};

// A number and the byte after it.
fn number_then(to: &mut [u8], at: usize, n: u32, after: u8) -> usize
    requires { at + 11 ≤ farthest }
    ensures { Wrote (followed_by (decimal n) after) at to.old result to.new }
{
    let end = file_writing::number(to, at, n);
    file_writing::byte(to, end, after)
}

// The sign of the facet without position i, and the line feed.
fn sign_line(to: &mut [u8], at: usize, i: usize) -> usize
    requires { at + 3 ≤ farthest }
    ensures { Wrote (followed_by (signed_of (sign_number (induced i))) 10) at to.old result to.new }
{
    if i % 2 == 0 {
        return file_writing::word(to, at, b"1\n");
    }
    file_writing::word(to, at, b"-1\n")
}

// The line of entry x.
fn line(k: usize, f: usize, g: usize, x: usize, ids: &[u32], to: &mut [u8], at: usize) -> usize
    requires { Numbered k f g ids.now × (x < f * (k + 1)) × (at + 25 ≤ farthest) }
    ensures { Wrote (line_at k ids.now x) at to.old result to.new }
{
    let n = k + 1;
    let place = x / n * n + (k - x % n);
    let coface = number_then(to, at, ids[place] + 1, b' ');
    let sign = number_then(to, coface, (x / n) as u32 + 1, b' ');
    sign_line(to, sign, x % n)
}

// The lines of all entries of f cofaces of dimension k.
fn lines(k: usize, f: usize, g: usize, ids: &[u32], to: &mut [u8], start: usize) -> usize
    requires { Numbered k f g ids.now × (start ≤ 100) }
    ensures { Wrote (lines_below k ids.now (f * (k + 1))) start to.old result to.new }
{
    let total = f * (k + 1);
    let mut at = start;
    for x in 0..total {
        at = line(k, f, g, x, ids, to, at);
    }
    at
}

// The line of the sizes: rows, columns, entries.
fn sizes(rows: u32, columns: u32, entries: u32, to: &mut [u8], at: usize) -> usize
    requires { at + 33 ≤ farthest }
    ensures { Wrote (line_of_three (decimal rows) (decimal columns) (decimal entries)) at to.old result to.new }
{
    let second = number_then(to, at, rows, b' ');
    let third = number_then(to, second, columns, b' ');
    number_then(to, third, entries, b'\n')
}

// The whole file, from the start of the byte list on: g faces, f cofaces of dimension k.
fn file(k: usize, f: usize, g: usize, ids: &[u32], to: &mut [u8]) -> usize
    requires { Numbered k f g ids.now }
    ensures { Wrote (head_word ++ (line_of_three (decimal g) (decimal f) (decimal (f * (k + 1))) ++ lines_below k ids.now (f * (k + 1)))) 0 to.old result
        to.new }
{
    let second = file_writing::word(to, 0, b"%%MatrixMarket matrix coordinate integer general\n");
    let total = f * (k + 1);
    let third = sizes(g as u32, f as u32, total as u32, to, second);
    lines(k, f, g, ids, to, third)
}

// Hands out the file, or 12 where the byte list is too short.
fn hand_file(k: usize, f: usize, g: usize, ids: &[u32], bytes: &mut [u8]) -> Result<u32, Refusal>
    requires { Numbered k f g ids.now }
    ensures { (es : List Entry) → EntryLists k f ids.now es → FileHanded (matrix_file g f es) result bytes.old bytes.new }
{
    let long = file(k, f, g, ids, &mut bytes[..0]);
    if bytes.len() < long {
        return Err(Refusal::TooShort);
    }
    file(k, f, g, ids, bytes);
    Ok(long as u32)
}

// Hands out the file of the operator from dimension k to k - 1.
fn list_file(
    d: usize,
    k: usize,
    words: &[u32],
    bytes: &mut [u8],
    keys: &mut [u32],
    rows: &mut [u32],
    spare: &mut [u32],
    counts: &mut [u32],
) -> Result<u32, Refusal>
    requires { Reaching d k words.now keys.old rows.old spare.old counts.old × (1 ≤ k) }
    ensures { FileHanded (market_of d k words.now) result bytes.old bytes.new }
{
    let f = complex_boundary::reach(d, k, words, keys, rows, spare, counts);
    let g = complex_descent::classes(k, f, words.len(), keys, rows, spare, counts);
    hand_file(k, f, g, counts, bytes)
}

// The file, or 7, 24, in working lists of just the sizes that are needed. Nothing is promised of them.
fn work(
    d: usize,
    k: usize,
    words: &[u32],
    bytes: &mut [u8],
    keys: &mut [u32],
    rows: &mut [u32],
    spare: &mut [u32],
    counts: &mut [u32],
) -> Result<u32, Refusal>
    requires { Working (face_need d (length words.now)) d words.now keys.old rows.old spare.old counts.old }
    ensures { FileWorked d k words.now result bytes.old bytes.new }
{
    if !skeleton::sound(d, words, keys, rows, spare, counts) {
        return Err(Refusal::CrowdedFacet);
    }
    if k < 1 {
        return Err(Refusal::BadFaces);
    }
    if d < k {
        return Err(Refusal::BadFaces);
    }
    list_file(d, k, words, bytes, keys, rows, spare, counts)
}

// The work, and then the working lists are all zero.
fn work_cleared(
    d: usize,
    k: usize,
    words: &[u32],
    bytes: &mut [u8],
    keys: &mut [u32],
    rows: &mut [u32],
    spare: &mut [u32],
    counts: &mut [u32],
) -> Result<u32, Refusal>
    requires { Working (face_need d (length words.now)) d words.now keys.old rows.old spare.old counts.old }
    ensures work { FileWorked d k words.now result bytes.old bytes.new }
    ensures room { AllZero keys.old keys.new rows.old rows.new spare.old spare.new counts.old
        counts.new }
{
    let said = work(d, k, words, bytes, keys, rows, spare, counts);
    lists::clear_four(keys, rows, spare, counts);
    said
}

// Writes the boundary operator from the faces of dimension k to those of dimension k - 1 as a Matrix Market file, and says how many bytes it has. Refused: 1, 2, 3, 4,
// 6, 5, then 12 where a working list is too short (`face_need`), then 7, 24 where k is 0 or above d, 12 where the byte list is too short. A refusal changes no byte; from
// the room's test on what is needed of the working lists is zero at the end.
pub fn matrix_market(
    d: u32,
    k: u32,
    words: &[u32],
    bytes: &mut [u8],
    keys: &mut [u32],
    rows: &mut [u32],
    spare: &mut [u32],
    counts: &mut [u32],
) -> Result<u32, Refusal>
    ensures { Marketed d k words.now result bytes.old bytes.new keys.old keys.new rows.old rows.new
        spare.old spare.new counts.old counts.new }
{
    complex::check_cells(d, words)?;
    let dim = d as usize;
    let need = complex_boundary::need(dim, words.len());
    let have = Room {
        keys: keys.len(),
        rows: rows.len(),
        spare: spare.len(),
        counts: counts.len(),
    };
    if !refusal::has_room(need, have) {
        return Err(Refusal::TooShort);
    }
    let a = need.keys;
    let r = need.rows;
    let s = need.spare;
    let c = need.counts;
    work_cleared(
        dim,
        k as usize,
        words,
        bytes,
        &mut keys[..a],
        &mut rows[..r],
        &mut spare[..s],
        &mut counts[..c],
    )
}
