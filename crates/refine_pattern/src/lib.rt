// The pattern of a refined cell, which every cell of a complex follows: its children by the weights of their corners.
// Follows `unit_refinement` and `kuhn_children` (crates/simplicial/src/atlas/refine.rs).
//
// A cell of dimension d refined by R is the simplex of the points s with R >= s0 >= s1 >= .. >= 0. From each base with digits 0 to R, and for each order of the axes,
// a chain steps by one along each axis; it is a child where all its points qualify. A base that does not qualify has no child, so the walk goes over those that do. A
// point's weights over the places of the cell's word are R - s0, s0 - s1, .., the last s. Dimension 0 is no special case: one base, one order, one point, of weight R.
//
// `pattern` is for the crates above, which check before they call it; `corners` and `corners_stepping` check for themselves. The patterns that most jobs want stand
// ready in a table: `corners` reads them there, and `corners_stepping` never does; `pattern` takes either way.
#![tactic(auto)]

mod table;

ghost use Rattle.std.specs.Prelude.{◌≡◌, true, not, suc, ◌≤◌, length};
ghost use Rattle.refusal.specs.Limits.{most_dimension, most_refinement};
ghost use Rattle.refusal.specs.Lent.{onto};
ghost use Rattle.lists.specs.Rows.{flat};
ghost use Rattle.refine_lattice.specs.Lattice.{weights};
ghost use Rattle.refine_lattice.specs.Children.{qualifies};
ghost use Rattle.refine_lattice.specs.Pattern.{pattern_of};
ghost use Rattle.refine_pattern.specs.WorkChains.{chain_at, keeps, weighed, given, falling_chains, risen, step_of, Stands, Kept, Fits, Ready};
ghost use Rattle.refine_pattern.specs.Promise.{outside, answer_of, Few, Corners};

use multiindex::{cartesian, permutation};
use refusal::{MOST_CELLS, MOST_DIMENSION, MOST_REFINEMENT, Refusal};

const AXES: usize = MOST_DIMENSION as usize;

// Where the walk through the chains stands: a base, in the first d numbers, and the number of an axis order.
#[derive(Clone, Copy)]
struct Cursor {
    base: [u32; AXES],
    order: usize,
}

// Whether the point s qualifies.
fn falls(r: u32, s: &[u32]) -> bool
    ensures { result ≡ qualifies r s.now }
{
    let mut top = r;
    for &x in s {
        if top < x {
            return false;
        }
        top = x;
    }
    true
}

// Writes the weights of the point s, which qualifies, into a list as long.
fn weigh(r: u32, s: &[u32], to: &mut [u32])
    requires { (qualifies r s.now ≡ true) × (length to.old ≡ suc (length s.now)) }
    ensures { to.new ≡ weights r s.now }
{
    let mut top = r;
    for (j, &x) in s.iter().enumerate() {
        to[j] = top - x;
        top = x;
    }
    to[s.len()] = top;
}

// Whether all points of the cursor's chain qualify.
fn kept(d: usize, r: u32, c: Cursor) -> bool
    requires { Stands d r c }
    ensures { result ≡ keeps r (chain_at d c) }
{
    let mut s = c.base;
    let k = c.order;
    for i in 0..d {
        if !falls(r, &s[..d]) {
            return false;
        }
        let j = permutation::axis(d, k, i);
        s[j] += 1;
    }
    falls(r, &s[..d])
}

// Writes the weights of the points of the cursor's chain, which is kept, into a list as long.
fn write(d: usize, r: u32, c: Cursor, to: &mut [u32])
    requires { Kept d r c (length to.old) }
    ensures { to.new ≡ weighed r (chain_at d c) }
{
    let n = d + 1;
    let mut s = c.base;
    let k = c.order;
    let mut at = 0;
    for i in 0..d {
        let end = at + n;
        weigh(r, &s[..d], &mut to[at..end]);
        let j = permutation::axis(d, k, i);
        s[j] += 1;
        at = end;
    }
    weigh(r, &s[..d], &mut to[at..]);
}

// Writes what the cursor's chain gives, and says how many numbers that took: none where the chain is not kept.
fn give(d: usize, r: u32, c: Cursor, to: &mut [u32]) -> usize
    requires { Fits d r c (length to.old) }
    ensures used { result ≡ length (given r (chain_at d c)) }
    ensures list { to.new ≡ onto (given r (chain_at d c)) to.old }
{
    if !kept(d, r, c) {
        return 0;
    }
    let size = (d + 1) * (d + 1);
    write(d, r, c, &mut to[..size]);
    size
}

// Goes on to the next point that falls from r: the first coordinate below r goes up by one, and those before it become its equal. After the last point all are 0.
fn rise(r: u32, s: &mut [u32])
    ensures { s.new ≡ risen r s.old }
{
    for j in 0..s.len() {
        let x = s[j];
        if x < r {
            let end = j + 1;
            s[..end].fill(x + 1);
            return;
        }
    }
    s.fill(0);
}

// The cursor's next place: the next axis order, and after the last one the next base that falls from r and the first order.
fn step(d: usize, r: u32, c: Cursor) -> Cursor
    requires { Stands d r c }
    ensures { result ≡ step_of d r c }
{
    let next = c.order + 1;
    let mut base = c.base;
    if next < permutation::count(d) {
        return Cursor { base, order: next };
    }
    rise(r, &mut base[..d]);
    Cursor { base, order: 0 }
}

// How many chains start from a base that falls from r: (r + 1) (r + 2) .. (r + d).
fn chain_count(d: usize, r: u32) -> usize
    requires { (d ≤ most_dimension) × (r ≤ most_refinement) }
    ensures { result ≡ length (falling_chains d r) }
{
    let mut total = 1;
    for j in 0..d {
        total *= r as usize + j + 1;
    }
    total
}

// Writes the pattern of a cell of dimension d refined by r by the stepping rule, chain by chain.
fn stepped(d: usize, r: u32, to: &mut [u32])
    requires { Ready d r (length to.old) }
    ensures { to.new ≡ onto (flat (pattern_of d r)) to.old }
{
    let chains = chain_count(d, r);
    let mut c = Cursor {
        base: [0; AXES],
        order: 0,
    };
    let mut at = 0;
    for _ in 0..chains {
        let used = give(d, r, c, &mut to[at..]);
        c = step(d, r, c);
        at += used;
    }
}

// Writes the pattern of a cell of dimension d refined by r: for each child, for each of its corners, the weights over the places of the cell's word. Read from the
// table where it stands there, unless the caller wants it by the stepping rule.
pub fn pattern(d: usize, r: u32, to: &mut [u32], by_steps: bool)
    requires { Ready d r (length to.old) }
    ensures { to.new ≡ onto (flat (pattern_of d r)) to.old }
{
    if by_steps {
        stepped(d, r, to);
        return;
    }
    if table::has(d, r) {
        table::tabled(d, r, to);
        return;
    }
    stepped(d, r, to);
}

// Whether r is a refinement number.
fn inside(r: u32) -> bool
    ensures { result ≡ not (outside r) }
{
    if r == 0 {
        return false;
    }
    r <= MOST_REFINEMENT
}

// What is wrong with asking for the corners of a cell of dimension d refined by r in a list of this length: 1, 11, 3, 12, or nothing.
fn check(d: u32, r: u32, len: usize) -> Result<(), Refusal>
    ensures { result ≡ answer_of d r len }
{
    if MOST_DIMENSION < d {
        return Err(Refusal::BadDimension);
    }
    if !inside(r) {
        return Err(Refusal::BadRefinement);
    }
    let axes = d as usize;
    let children = cartesian::count(axes, r as usize);
    if MOST_CELLS < children {
        return Err(Refusal::TooManyCells);
    }
    if len < children * ((axes + 1) * (axes + 1)) {
        return Err(Refusal::TooShort);
    }
    Ok(())
}

// How many corners the children of a cell of dimension d refined by r have.
fn count(d: usize, r: u32) -> u32
    requires { Few d r }
    ensures { result ≡ length (pattern_of d r) }
{
    (cartesian::count(d, r as usize) * (d + 1)) as u32
}

// Both calls: what is wrong, or the pattern and how many corners it has.
fn listed(d: u32, r: u32, to: &mut [u32], by_steps: bool) -> Result<u32, Refusal>
    ensures { Corners d r result to.old to.new }
{
    check(d, r, to.len())?;
    let axes = d as usize;
    pattern(axes, r, to, by_steps);
    Ok(count(axes, r))
}

// Writes the corners of the children of a cell of dimension d refined by r, d + 1 weights each, and says how many corners; those that the table has are read there.
// Refused: 1, 11, 3 where there are too many children, 12 where the list is too short. A refusal changes no number.
pub fn corners(d: u32, r: u32, to: &mut [u32]) -> Result<u32, Refusal>
    ensures { Corners d r result to.old to.new }
{
    listed(d, r, to, false)
}

// The same by the stepping rule alone: it says and writes what `corners` does, on every input.
pub fn corners_stepping(d: u32, r: u32, to: &mut [u32]) -> Result<u32, Refusal>
    ensures { Corners d r result to.old to.new }
{
    listed(d, r, to, true)
}
