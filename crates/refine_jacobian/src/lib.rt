// The Jacobian of a child in its parent's local coordinates, as whole numbers over R and as floats, and shares as floats.
// Follows the Jacobian of a `Child` in `Complex::refine_with` (crates/simplicial/src/topology/refine.rs); the port added whole numbers.
//
// A child's corners are known by their weights over the places of the parent's word (the pattern's part of the child). Its Jacobian goes by sorted vertices: column j is the child's
// corner j + 1 minus its corner 0, row l the share of the parent's vertex l + 1. The functions here are for the crates above, which check before they call them.
#![tactic(auto)]

ghost use Rattle.std.specs.Prelude.{◌≡◌, map, ℕ, suc, ◌*◌, ◌/◌, ◌%◌, ◌<◌, ◌≤◌, length, get_or};
ghost use Rattle.refine_jacobian.specs.Entries.{share_of, whole_of, float_of};
ghost use Rattle.refusal.specs.Limits.{row_most, square_most};
ghost use Rattle.refine_jacobian.specs.WorkWeights.{place_of, weight_of, entry_at, Placed, Seated};

use refusal::{ROW_MOST, SQUARE_MOST};

// Weight w over R as a float.
fn share(r: u32, w: u32) -> f64
    ensures { result ≡ share_of r w }
{
    (w as f64) * (1.0 / (r as f64))
}

// Writes each weight over R as a float, into a list as long.
pub fn shares(r: u32, weights: &[u32], to: &mut [f64])
    requires { length to.old ≡ length weights.now }
    ensures { to.new ≡ map (share_of r) weights.now }
{
    for (i, &w) in weights.iter().enumerate() {
        to[i] = share(r, w);
    }
}

// Where v stands in the word; its length, where it is not there.
fn place(word: &[u32], v: u32) -> usize
    ensures { result ≡ place_of word.now v }
{
    for (i, &x) in word.iter().enumerate() {
        if x == v {
            return i;
        }
    }
    word.len()
}

// Where each number of a list stands in the word.
fn places(word: &[u32], list: &[u32]) -> [usize; ROW_MOST]
    requires { length list.now ≤ row_most }
    ensures { (j : ℕ) → j < length list.now → get_or result j 0 ≡ place_of word.now (get_or list.now j 0) }
{
    let mut to = [0; ROW_MOST];
    for (j, &v) in list.iter().enumerate() {
        to[j] = place(word, v);
    }
    to
}

// The weights between which an entry of the Jacobian steps.
#[derive(Clone, Copy)]
struct Between {
    to: u32,
    from: u32,
}

// Entry e of the d·d, column e / d and row e % d, where `seats` and `slots` tell which of the child's corners and of their weights belongs to a sorted vertex.
fn step(
    d: usize,
    e: usize,
    corners: &[u32],
    seats: [usize; ROW_MOST],
    slots: [usize; ROW_MOST],
) -> Between
    requires { (e < d * d) × Placed d corners.now seats slots }
    ensures to { result.to ≡ entry_at d corners.now seats slots (suc (e / d)) (suc (e % d)) }
    ensures from { result.from ≡ entry_at d corners.now seats slots 0 (suc (e % d)) }
    ensures small { (result.to < 2147483648) × (result.from < 2147483648) }
{
    let n = d + 1;
    let slot = slots[e % d + 1];
    let seat = seats[e / d + 1];
    let first = seats[0];
    Between {
        to: corners[seat * n + slot],
        from: corners[first * n + slot],
    }
}

// Writes the Jacobian in whole numbers over R and in floats: d·d by column, then zeros.
pub fn both(
    d: usize,
    r: u32,
    corners: &[u32],
    names: &[u32],
    word: &[u32],
    parent: &[u32],
    cell: &[u32],
    whole: &mut [i32],
    float: &mut [f64],
)
    requires { (length whole.old ≡ square_most) × (length float.old ≡ square_most) × Seated d corners.now names.now word.now parent.now cell.now }
    ensures whole { whole.new ≡ whole_of d (weight_of corners.now names.now word.now) parent.now cell.now }
    ensures float { float.new ≡ float_of d r (weight_of corners.now names.now word.now) parent.now cell.now }
{
    let seats = places(names, cell);
    let slots = places(word, parent);
    let size = d * d;
    for e in 0..SQUARE_MOST {
        if size <= e {
            whole[e] = 0;
            float[e] = 0.0;
            continue;
        }
        let s = step(d, e, corners, seats, slots);
        whole[e] = s.to as i32 - s.from as i32;
        float[e] = share(r, s.to) - share(r, s.from);
    }
}
