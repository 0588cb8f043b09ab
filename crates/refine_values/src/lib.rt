// One child, one word refined by, one birth, each by its number: values read from the lists that a refinement hands out. A caller lends the parts that were handed out, so
// that a number past the last one is past the lists.
// Follows `Child`, `VertexBirth` (crates/simplicial/src/topology/refine.rs) and `CellOrdering::word` (crates/simplicial/src/topology/ordering.rs).
#![tactic(auto)]

ghost use Rattle.std.specs.Prelude.{◌++◌, ◌≡◌, ℕ, suc, ◌+◌, ◌*◌, ◌<◌, ◌≤◌, length};
ghost use Rattle.refine_jacobian.specs.Entries.{nought};
ghost use Rattle.refine_values.specs.Reading.{has_child, child_of, word_in, word_along, four, support, has_birth, birth_of};

use refine_births::NONE;
use refusal::{MOST_DIMENSION, Refusal};

// A child: the number of its parent, and its Jacobian in the parent's local coordinates, by column and then zeros, in floats and as whole numbers over R.
#[derive(Clone, Copy, Debug, PartialEq)]
pub struct Child {
    pub parent: u32,
    pub jacobian: [f64; 9],
    pub whole: [i32; 9],
}

// A birth: how many coarse vertices support it, these vertices, their weights over R and the shares in floats. Past them stand 4294967295, 0 and 0.0.
#[derive(Clone, Copy, Debug, PartialEq)]
pub struct Birth {
    pub count: u32,
    pub vertices: [u32; 4],
    pub weights: [u32; 4],
    pub shares: [f64; 4],
}

// Nine floats as a value.
fn nine_floats(part: &[f64]) -> [f64; 9]
    requires { length part.now ≡ 9 }
    ensures { result ≡ part.now }
{
    let mut nine = [0.0; 9];
    nine.copy_from_slice(part);
    nine
}

// Nine whole numbers as a value.
fn nine_wholes(part: &[i32]) -> [i32; 9]
    requires { length part.now ≡ 9 }
    ensures { result ≡ part.now }
{
    let mut nine = [0; 9];
    nine.copy_from_slice(part);
    nine
}

// Whether lists of these lengths have child k.
fn has_child(k: usize, parents: usize, jacobians: usize, wholes: usize) -> bool
    requires { k < 4294967296 }
    ensures { result ≡ has_child k parents jacobians wholes }
{
    let end = k * 9 + 9;
    if parents <= k {
        return false;
    }
    if jacobians < end {
        return false;
    }
    end <= wholes
}

// The child of that number. Refused: 12 where a list has none of that number.
pub fn child_of(
    number: u32,
    parents: &[u32],
    jacobians: &[f64],
    wholes: &[i32],
) -> Result<Child, Refusal>
    ensures { result ≡ child_of number parents.now jacobians.now wholes.now }
{
    let k = number as usize;
    if !has_child(k, parents.len(), jacobians.len(), wholes.len()) {
        return Err(Refusal::TooShort);
    }
    let at = k * 9;
    let end = at + 9;
    let parent = parents[k];
    let jacobian = nine_floats(&jacobians[at..end]);
    let whole = nine_wholes(&wholes[at..end]);
    Ok(Child {
        parent,
        jacobian,
        whole,
    })
}

// The word of that number in a list of words of d + 1 numbers; no number where the list has none, or d is more than 3.
fn word_in<'a>(d: u32, number: u32, words: &'a [u32]) -> &'a [u32]
    ensures { result.now ≡ word_in d number words.now }
{
    if MOST_DIMENSION < d {
        return &words[..0];
    }
    let n = d as usize + 1;
    let at = number as usize * n;
    let end = at + n;
    if words.len() < end {
        return &words[..0];
    }
    &words[at..end]
}

// The word that the cell of that number is refined by, as a part of one of two lists: of the order's words by cell where an order is given, else of the cells. No number where
// that list has none.
pub fn word_of<'a>(
    given: bool,
    d: u32,
    number: u32,
    cells: &'a [u32],
    order: &'a [u32],
) -> &'a [u32]
    ensures { result.now ≡ word_along given d number cells.now order.now }
{
    if given {
        return word_in(d, number, order);
    }
    word_in(d, number, cells)
}

// At most four numbers as a value: past them stands `past`.
fn four_numbers(part: &[u32], past: u32) -> [u32; 4]
    requires { length part.now ≤ 4 }
    ensures { result ≡ four past part.now }
{
    let mut row = [past; 4];
    row[..part.len()].copy_from_slice(part);
    row
}

// At most four floats as a value: past them stands 0.
fn four_floats(part: &[f64]) -> [f64; 4]
    requires { length part.now ≤ 4 }
    ensures { result ≡ four nought part.now }
{
    let mut row = [0.0; 4];
    row[..part.len()].copy_from_slice(part);
    row
}

// How many vertices stand in a row of a birth's vertices.
fn vertices_in(row: &[u32]) -> u32
    requires { length row.now ≤ 4 }
    ensures { result ≡ support row.now }
{
    for (i, &v) in row.iter().enumerate() {
        if v == NONE {
            return i as u32;
        }
    }
    row.len() as u32
}

// Whether lists of these lengths have birth k, n entries each.
fn has_birth(n: usize, k: usize, vertices: usize, weights: usize, shares: usize) -> bool
    requires { (n ≤ 4) × (k < 4294967296) }
    ensures { result ≡ has_birth n k vertices weights shares }
{
    let end = k * n + n;
    if vertices < end {
        return false;
    }
    if weights < end {
        return false;
    }
    end <= shares
}

// The birth of that number, counted from the first new vertex on, in dimension d. Refused: 1 where d is more than 3, 12 where a list has none of that number.
pub fn birth_of(
    d: u32,
    number: u32,
    vertices: &[u32],
    weights: &[u32],
    shares: &[f64],
) -> Result<Birth, Refusal>
    ensures { result ≡ birth_of d number vertices.now weights.now shares.now }
{
    if MOST_DIMENSION < d {
        return Err(Refusal::BadDimension);
    }
    let n = d as usize + 1;
    let k = number as usize;
    if !has_birth(n, k, vertices.len(), weights.len(), shares.len()) {
        return Err(Refusal::TooShort);
    }
    let at = k * n;
    let end = at + n;
    let row = &vertices[at..end];
    let count = vertices_in(row);
    let named = four_numbers(row, NONE);
    let weighed = four_numbers(&weights[at..end], 0);
    let shared = four_floats(&shares[at..end]);
    Ok(Birth {
        count,
        vertices: named,
        weights: weighed,
        shares: shared,
    })
}
