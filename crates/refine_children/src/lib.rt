// The children of a refined complex in the colex order of their cells: which child comes first for each cell, its parent, and its Jacobian.
// Follows the last part of `Complex::refine_with`, which brings the children into colex order (crates/simplicial/src/topology/refine.rs).
//
// The children's words stand in visiting order, parent after parent, `size` of them for each parent. The functions here are for the crate above, which checks before it calls them.
#![tactic(auto)]

ghost use Rattle.std.specs.Prelude.{◌≡◌, ℕ, suc, ◌*◌, ◌/◌, ◌≤◌, ◌<◌, length, get_or};
ghost use Rattle.refusal.specs.Limits.{square_most};
ghost use Rattle.lists.specs.Tables.{tab};
ghost use Rattle.refine_children.specs.WorkColex.{Arranging, Arranged};
ghost use Rattle.refine_children.specs.WorkFamily.{joined, whole_at, float_at, Family, Families};

use refusal::SQUARE_MOST;

// Sorts each of the count words of n numbers below b into `sorted`, and writes the first word of each cell, in the cells' colex order, to `firsts`; says how many cells there are.
pub fn colex(
    n: usize,
    count: usize,
    b: usize,
    words: &[u32],
    sorted: &mut [u32],
    order: &mut [u32],
    firsts: &mut [u32],
    buckets: &mut [u32],
) -> usize
    requires { Arranging n count b words.now sorted.old order.old firsts.old buckets.old }
    ensures { Arranged n count words.now result sorted.new firsts.new }
{
    lists::copy(words, sorted);
    multiindex::word::sort_words(sorted, n, count);
    sorting::sort_rows(sorted, n, count, b, order, firsts, buckets);
    sorting::distinct(sorted, n, count, order, firsts, buckets)
}

// Writes the parent of each child that `firsts` names, into a list of as many.
pub fn parents(size: usize, firsts: &[u32], to: &mut [u32])
    requires { (0 < size) × (length to.old ≤ length firsts.now) }
    ensures { to.new ≡ tab (length to.old) (λ i. get_or firsts.now i 0 / size) }
{
    for (i, parent) in to.iter_mut().enumerate() {
        *parent = (firsts[i] as usize / size) as u32;
    }
}

// Writes the Jacobian of child x, in whole numbers over r and in floats.
fn child(
    d: usize,
    r: u32,
    size: usize,
    x: usize,
    pattern: &[u32],
    words: &[u32],
    sorted: &[u32],
    along: &[u32],
    cells: &[u32],
    whole: &mut [i32],
    float: &mut [f64],
)
    requires { (length whole.old ≡ square_most) × (length float.old ≡ square_most) × Family d size pattern.now words.now sorted.now along.now cells.now x }
    ensures whole { whole.new ≡ whole_at d size pattern.now words.now sorted.now along.now cells.now x }
    ensures float { float.new ≡ float_at d r size pattern.now words.now sorted.now along.now cells.now x }
{
    let n = d + 1;
    let square = n * n;
    let parent = x / size;
    let a = x % size * square;
    let b = a + square;
    let c = x * n;
    let e = c + n;
    let f = parent * n;
    let g = f + n;
    let corners = &pattern[a..b];
    let names = &words[c..e];
    let cell = &sorted[c..e];
    let word = &along[f..g];
    let home = &cells[f..g];
    refine_jacobian::both(d, r, corners, names, word, home, cell, whole, float);
}

// Writes the Jacobian of each child that the first m of `firsts` name, `SQUARE_MOST` numbers each.
pub fn jacobians(
    d: usize,
    r: u32,
    size: usize,
    m: usize,
    firsts: &[u32],
    pattern: &[u32],
    words: &[u32],
    sorted: &[u32],
    along: &[u32],
    cells: &[u32],
    wholes: &mut [i32],
    floats: &mut [f64],
)
    requires { (length wholes.old ≡ m * square_most) × (length floats.old ≡ m * square_most) × Families d size m firsts.now pattern.now words.now sorted.now along.now cells.now }
    ensures wholes { wholes.new ≡ joined m (λ i. whole_at d size pattern.now words.now sorted.now along.now cells.now (get_or firsts.now i 0)) }
    ensures floats { floats.new ≡ joined m (λ i. float_at d r size pattern.now words.now sorted.now along.now cells.now (get_or firsts.now i 0)) }
{
    for i in 0..m {
        let x = firsts[i] as usize;
        let at = i * SQUARE_MOST;
        let end = at + SQUARE_MOST;
        child(
            d,
            r,
            size,
            x,
            pattern,
            words,
            sorted,
            along,
            cells,
            &mut wholes[at..end],
            &mut floats[at..end],
        );
    }
}
