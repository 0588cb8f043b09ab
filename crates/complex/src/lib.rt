// The check of a cell list: a flat list of words of d+1 vertex numbers each.
// Follows what `Simplex::new`, `Skeleton::new` and `Complex::from_cells` assert (crates/simplicial/src/topology/simplex.rs, skeleton.rs, complex.rs).
#![tactic(auto)]

ghost use Rattle.std.specs.Prelude.{◌≡◌, ℕ, ◌+◌, ◌*◌, ◌<◌, ◌≤◌, length, get_or, eqb};
ghost use Rattle.refusal.specs.Limits.{most_dimension, most_vertices, many_corners};
ghost use Rattle.lists.specs.Words.{has_repeat, largest_of, first_where, marked};
ghost use Rattle.complex.specs.Check.{first_repeat, answer_of};
ghost use Rattle.complex.specs.Room.{key_room, need_of};

use lists::largest;
use refusal::{MOST_CELLS, MOST_DIMENSION, MOST_VERTICES, Refusal, Room};

const LAST_VERTEX: u32 = MOST_VERTICES as u32 - 1;

// Whether a word names a vertex twice.
fn repeats(w: &[u32]) -> bool
    ensures { result ≡ has_repeat w.now }
{
    for (i, v) in w.iter().enumerate() {
        if w[i + 1..].contains(v) {
            return true;
        }
    }
    false
}

// The index of the first word that names a vertex twice, or the number of words.
fn first_repeat(ws: &[u32], n: usize, count: usize) -> usize
    requires { count * n ≤ length ws.now }
    ensures { result ≡ first_repeat n ws.now count }
{
    for k in 0..count {
        let at = k * n;
        if repeats(&ws[at..at + n]) {
            return k;
        }
    }
    count
}

// Stores a 1 in `seen` at each of the numbers.
fn mark(ws: &[u32], seen: &mut [u8; MOST_VERTICES])
    requires { largest_of ws.now < most_vertices }
    ensures { seen.new ≡ marked seen.old ws.now }
{
    for &v in ws {
        seen[v as usize] = 1;
    }
}

// The least number below top at which nothing is marked, or top.
fn least_unmarked(seen: &[u8; MOST_VERTICES], top: u32) -> u32
    requires { top < most_vertices }
    ensures { result ≡ first_where (λ v. eqb (get_or seen.now v 0) 0) top }
{
    let end = top as usize;
    seen[..end]
        .iter()
        .position(|mark| *mark == 0)
        .unwrap_or(end) as u32
}

// Checks a list of cells of dimension d: document 01's refusals 1, 2, 3, 4, 6 and 5, in this order.
pub fn check_cells(d: u32, words: &[u32]) -> Result<(), Refusal>
    ensures { result ≡ answer_of d words.now }
{
    if MOST_DIMENSION < d {
        return Err(Refusal::BadDimension);
    }
    let n = d as usize + 1;
    let len = words.len();
    if len == 0 {
        return Err(Refusal::RaggedWords);
    }
    if len % n != 0 {
        return Err(Refusal::RaggedWords);
    }
    let count = len / n;
    if MOST_CELLS < count {
        return Err(Refusal::TooManyCells);
    }
    let first = first_repeat(words, n, count);
    if first < count {
        return Err(Refusal::VertexTwice(first as u32));
    }
    let top = largest(words);
    if LAST_VERTEX < top {
        return Err(Refusal::TooManyVertices);
    }
    let mut seen = [0u8; MOST_VERTICES];
    mark(words, &mut seen);
    let gap = least_unmarked(&seen, top);
    if gap < top {
        return Err(Refusal::UnusedNumber(gap));
    }
    Ok(())
}

// How many numbers the facet rows of words with len corners need for their keys.
fn key_room(d: usize, len: usize) -> usize
    requires { (d ≤ most_dimension) × (len < many_corners) }
    ensures { result ≡ key_room d len }
{
    if d == 0 {
        return len;
    }
    d * len
}

// What a call on words with len corners needs of its working lists.
pub fn need(d: usize, len: usize) -> Room
    requires { (d ≤ most_dimension) × (len < many_corners) }
    ensures { result ≡ need_of d len }
{
    Room {
        keys: key_room(d, len),
        rows: len,
        spare: len,
        counts: len,
    }
}
