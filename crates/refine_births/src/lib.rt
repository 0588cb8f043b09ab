// The vertices of a refined complex. Each corner of each child is a point of its parent's lattice, and a point is its support: the coarse vertices with a
// positive weight, and these weights. A support of one vertex is that vertex; any other is a birth, numbered after the coarse vertices by first visit.
// Points are told apart by sorting their rows: the support's vertices, rising, then their weights, padded to one length.
// Follows `resolve` in `Complex::refine_with`, and `VertexBirth` (crates/simplicial/src/topology/refine.rs).
//
// What the four working lists hold:
//   keys    the rows of the visits                             from the first step on
//   rows    the visits sorted, then the number of each class
//   spare   the first visit of each class, then of each birth
//   counts  buckets, then the class of each visit, then its number: the children's words
#![tactic(auto)]

ghost use Rattle.std.specs.Prelude.{◌≡◌, List, [], ℕ, suc, ◌+◌, ◌*◌, ◌≤◌, ◌<◌, length, get_or, replicate};
ghost use Rattle.lists.specs.Rows.{cut};
ghost use Rattle.lists.specs.Words.{none};
ghost use Rattle.refine_births.specs.Support.{supporters, shares, padded, Starts};
ghost use Rattle.refine_births.specs.WorkNumbers.{Classing, Classed, Numbering, Told, Numbered};
ghost use Rattle.refine_births.specs.Promise.{birth_vertices_of, birth_weights_of, Resolving, Resolved, Supports, Bearing, Born};

mod support;
mod visits;

// No number yet; and no vertex, past a birth's support.
pub const NONE: u32 = 4294967295;

// Puts the rows of the visits into classes, one class for one row: `counts` has the class of each visit.
fn classes(
    stride: usize,
    total: usize,
    b: usize,
    keys: &[u32],
    rows: &mut [u32],
    spare: &mut [u32],
    counts: &mut [u32],
)
    requires { Classing stride total b keys.now rows.old spare.old counts.old }
    ensures { Classed stride total keys.now counts.new }
{
    sorting::sort_rows(keys, stride, total, b, rows, spare, counts);
    sorting::distinct(keys, stride, total, rows, spare, counts);
}

// Numbers the visits in their sequence: `corners` has each visit's class and then its number, `numbers` the number of each class, and `fresh` names the
// first visit of each birth. Returns how many births there are.
fn number(
    size: usize,
    n: u32,
    total: usize,
    keys: &[u32],
    numbers: &mut [u32],
    fresh: &mut [u32],
    corners: &mut [u32],
) -> usize
    requires { Numbering size n total keys.now numbers.old fresh.old corners.old }
    ensures { (points : List (List ℕ)) → Told size n total points keys.now corners.old → Numbered n points result fresh.new corners.new }
{
    let stride = size + size;
    let mut count = 0;
    for x in 0..total {
        let class = corners[x] as usize;
        let seen = numbers[class];
        if seen != NONE {
            corners[x] = seen;
            continue;
        }
        let at = x * stride;
        let end = at + stride;
        let lone = support::single(size, n, &keys[at..end]);
        if lone {
            let v = keys[at];
            numbers[class] = v;
            corners[x] = v;
            continue;
        }
        let v = n + count as u32;
        numbers[class] = v;
        corners[x] = v;
        fresh[count] = x as u32;
        count += 1;
    }
    count
}

// Writes the words of the children, in visiting order, to `counts`, leaves the rows of the visits in `keys`, and names the first visit of each birth in `spare`.
// Returns how many births there are.
pub fn resolve(
    d: usize,
    r: u32,
    n: u32,
    m: usize,
    p: usize,
    words: &[u32],
    pattern: &[u32],
    keys: &mut [u32],
    rows: &mut [u32],
    spare: &mut [u32],
    counts: &mut [u32],
) -> usize
    requires { Resolving d r n m p words.now pattern.now keys.old rows.old spare.old counts.old }
    ensures { Resolved d r n m p (cut (suc d) m words.now) result keys.new spare.new counts.new }
{
    let size = d + 1;
    let total = m * p;
    visits::write(size, n, m, p, words, pattern, keys);
    classes(
        size + size,
        total,
        n as usize + r as usize + 1,
        keys,
        rows,
        spare,
        counts,
    );
    rows.fill(NONE);
    number(size, n, total, keys, rows, spare, counts)
}

// Writes a birth from its row: the vertices of its support, then none; their weights, then 0.
fn birth(n: u32, row: &[u32], vertices: &mut [u32], weights: &mut [u32])
    requires { (length row.now ≡ length vertices.old + length vertices.old) × (length weights.old ≡ length vertices.old) }
    ensures { Born n row.now (length vertices.old) vertices.new weights.new }
{
    let size = vertices.len();
    for j in 0..size {
        vertices[j] = support::named(n, row[j]);
        weights[j] = row[size + j];
    }
}

// Writes the births, one row of `size` vertices and one of weights each.
fn write_births(
    size: usize,
    n: u32,
    count: usize,
    keys: &[u32],
    fresh: &[u32],
    vertices: &mut [u32],
    weights: &mut [u32],
)
    requires { Bearing size count keys.now fresh.now vertices.old weights.old }
    ensures { (bs : List (List ℕ)) → Supports size n count bs keys.now fresh.now → (vertices.new ≡ birth_vertices_of size bs) × (weights.new ≡ birth_weights_of size bs) }
{
    let stride = size + size;
    for b in 0..count {
        let from = fresh[b] as usize * stride;
        let until = from + stride;
        let at = b * size;
        let end = at + size;
        birth(
            n,
            &keys[from..until],
            &mut vertices[at..end],
            &mut weights[at..end],
        );
    }
}

// Writes the births in the order of their numbers: the vertices of their supports, then none; their weights, then 0.
pub fn births(
    d: usize,
    n: u32,
    count: usize,
    keys: &[u32],
    fresh: &[u32],
    vertices: &mut [u32],
    weights: &mut [u32],
)
    requires { Bearing (suc d) count keys.now fresh.now vertices.old weights.old }
    ensures { (bs : List (List ℕ)) → Supports (suc d) n count bs keys.now fresh.now → (vertices.new ≡ birth_vertices_of (suc d) bs) × (weights.new ≡ birth_weights_of (suc d) bs) }
{
    write_births(d + 1, n, count, keys, fresh, vertices, weights);
}
