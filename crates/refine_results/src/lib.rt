// Edgewise refinement of a whole complex.
// Follows `Complex::refine_with` and the lists of `Subdivision` (crates/simplicial/src/topology/refine.rs).
//
// Every cell is refined by one pattern, read along a word of its vertices. A point of the pattern is known by its support, the vertices with a positive weight and their weights,
// so that cells with a common facet have the points of the facet in common. Definitions are in specs/.
//
// What the working lists hold, one phase after the other (the cells and the words refined by stand beside them):
//   pattern  the weights of the children's corners in one cell
//   keys     the supports of all corners
//   rows     the number of each support       the children in colex order
//   spare    the first visits of the births
//   counts   the children's words, in visiting order
//   sorted   -                                 the children's words sorted
//   firsts   -                                 the first child of each refined cell
//   buckets  -                                 buckets, then the refined cell of each child
//
// `refined` is for the crate above, which checks before it calls it.
#![tactic(auto)]

ghost use Rattle.std.specs.Prelude.{◌≡◌, List, ℕ, suc, ◌+◌, ◌≤◌, length};
ghost use Rattle.refusal.specs.Limits.{most_dimension, most_cells, most_vertices};
ghost use Rattle.refine_children.specs.WorkColex.{Arranging, Arranged};
ghost use Rattle.refine_births.specs.Promise.{Supports};
ghost use Rattle.refine_results.specs.WorkStage.{Ready, Handed};
ghost use Rattle.refine_results.specs.WorkSteps.{Tested, Seeking, Sought, lent, Fits, Writing, Wrote, Bears, Bore, Finishing};

use multiindex::cartesian;
use refusal::{MOST_CELLS, MOST_REFINEMENT, MOST_VERTICES, Refusal, SQUARE_MOST};

// What a refinement says: how many children and how many vertices there are.
#[derive(Clone, Copy, Debug, PartialEq, Eq)]
pub struct Refinement {
    pub children: u32,
    pub vertices: u32,
}

// How many children and how many births there are.
#[derive(Clone, Copy)]
struct Counts {
    children: u32,
    births: u32,
}

// Whether r is a refinement number.
fn inside(r: u32) -> bool
    ensures { Tested r result }
{
    if r == 0 {
        return false;
    }
    r <= MOST_REFINEMENT
}

// Finds the pattern, by the stepping rule where the caller wants it so, the children's words in visiting order and the births: says how many children and how many births
// there are, or 11, 3 or 6.
fn seek(
    d: usize,
    r: u32,
    n: u32,
    m: usize,
    along: &[u32],
    pattern: &mut [u32],
    keys: &mut [u32],
    rows: &mut [u32],
    spare: &mut [u32],
    counts: &mut [u32],
    by_steps: bool,
) -> Result<Counts, Refusal>
    requires { Seeking d r n m along.now pattern.old keys.old rows.old spare.old counts.old }
    ensures { Sought d r n m along.now pattern.new keys.new spare.new counts.new result }
{
    if !inside(r) {
        return Err(Refusal::BadRefinement);
    }
    let size = cartesian::count(d, r as usize);
    let children = m * size;
    if MOST_CELLS < children {
        return Err(Refusal::TooManyCells);
    }
    refine_pattern::pattern(d, r, pattern, by_steps);
    let corners = size * (d + 1);
    let born = refine_births::resolve(
        d, r, n, m, corners, along, pattern, keys, rows, spare, counts,
    );
    if MOST_VERTICES < n as usize + born {
        return Err(Refusal::TooManyVertices);
    }
    Ok(Counts {
        children: children as u32,
        births: born as u32,
    })
}

// Whether result lists of these lengths take m refined cells and b births.
fn fits(
    d: usize,
    m: usize,
    b: usize,
    cells: usize,
    words: usize,
    parents: usize,
    jacobians: usize,
    wholes: usize,
    vertices: usize,
    weights: usize,
    shares: usize,
) -> bool
    requires { (d ≤ most_dimension) × (m ≤ most_cells) × (b ≤ most_vertices) }
    ensures { Fits d m b (lent cells words parents jacobians wholes vertices weights shares) result }
{
    let corners = m * (d + 1);
    let ends = b * (d + 1);
    if cells < corners {
        return false;
    }
    if words < corners {
        return false;
    }
    if parents < m {
        return false;
    }
    if jacobians < m * SQUARE_MOST {
        return false;
    }
    if wholes < m * SQUARE_MOST {
        return false;
    }
    if vertices < ends {
        return false;
    }
    if weights < ends {
        return false;
    }
    ends <= shares
}

// Writes of each child that the first m of `firsts` name its sorted word, its word, its parent and its Jacobian.
fn write_children(
    d: usize,
    r: u32,
    size: usize,
    m: usize,
    firsts: &[u32],
    pattern: &[u32],
    names: &[u32],
    sorted: &[u32],
    along: &[u32],
    coarse: &[u32],
    cells: &mut [u32],
    words: &mut [u32],
    parents: &mut [u32],
    jacobians: &mut [f64],
    wholes: &mut [i32],
)
    requires { Writing d size m firsts.now pattern.now names.now sorted.now along.now coarse.now cells.old words.old parents.old jacobians.old wholes.old }
    ensures { Wrote d r size m firsts.now pattern.now names.now sorted.now along.now coarse.now
        cells.old cells.new words.old words.new parents.old parents.new
        jacobians.old jacobians.new wholes.old wholes.new }
{
    let n = d + 1;
    sorting::gather(sorted, n, firsts, m, cells);
    sorting::gather(names, n, firsts, m, words);
    refine_children::parents(size, firsts, &mut parents[..m]);
    let len = m * SQUARE_MOST;
    refine_children::jacobians(
        d,
        r,
        size,
        m,
        firsts,
        pattern,
        names,
        sorted,
        along,
        coarse,
        &mut wholes[..len],
        &mut jacobians[..len],
    );
}

// Writes the births: the vertices of their supports, the weights over r and the weights as floats.
fn write_births(
    d: usize,
    r: u32,
    n: u32,
    count: usize,
    keys: &[u32],
    fresh: &[u32],
    vertices: &mut [u32],
    weights: &mut [u32],
    shares: &mut [f64],
)
    requires { Bears d count keys.now fresh.now vertices.old weights.old shares.old }
    ensures { (bs : List (List ℕ)) → Supports (suc d) n count bs keys.now fresh.now
        → Bore d r bs vertices.old vertices.new weights.old weights.new shares.old shares.new }
{
    let len = count * (d + 1);
    refine_births::births(
        d,
        n,
        count,
        keys,
        fresh,
        &mut vertices[..len],
        &mut weights[..len],
    );
    refine_jacobian::shares(r, &weights[..len], &mut shares[..len]);
}

// Sorts each of the count words of `size` vertices below n + born into `sorted`, and writes the first word of each cell, in the cells' colex order, to `firsts`; says how many
// cells there are.
fn ordered(
    size: usize,
    count: usize,
    n: u32,
    born: u32,
    names: &[u32],
    sorted: &mut [u32],
    rows: &mut [u32],
    firsts: &mut [u32],
    buckets: &mut [u32],
) -> usize
    requires { (n + born ≤ most_vertices) × Arranging size count (n + born) names.now sorted.old rows.old firsts.old buckets.old }
    ensures { Arranged size count names.now result sorted.new firsts.new }
{
    refine_children::colex(
        size,
        count,
        n as usize + born as usize,
        names,
        sorted,
        rows,
        firsts,
        buckets,
    )
}

// Brings the refined cells into colex order and hands out the results, or 12 where a result list is too short.
fn finish(
    d: usize,
    r: u32,
    n: u32,
    m: usize,
    born: u32,
    coarse: &[u32],
    along: &[u32],
    out_cells: &mut [u32],
    out_words: &mut [u32],
    parents: &mut [u32],
    jacobians: &mut [f64],
    wholes: &mut [i32],
    birth_vertices: &mut [u32],
    birth_weights: &mut [u32],
    birth_shares: &mut [f64],
    pattern: &[u32],
    keys: &[u32],
    rows: &mut [u32],
    spare: &[u32],
    names: &[u32],
    sorted: &mut [u32],
    firsts: &mut [u32],
    buckets: &mut [u32],
) -> Result<Refinement, Refusal>
    requires { Finishing d r n m born coarse.now along.now pattern.now keys.now rows.old spare.now names.now sorted.old firsts.old buckets.old }
    ensures { Handed d r n m coarse.now along.now result out_cells.old out_cells.new out_words.old out_words.new
        parents.old parents.new jacobians.old jacobians.new wholes.old wholes.new
        birth_vertices.old birth_vertices.new birth_weights.old birth_weights.new birth_shares.old birth_shares.new }
{
    let size = cartesian::count(d, r as usize);
    let kinds = ordered(
        d + 1,
        m * size,
        n,
        born,
        names,
        sorted,
        rows,
        firsts,
        buckets,
    );
    let fresh = born as usize;
    if !fits(
        d,
        kinds,
        fresh,
        out_cells.len(),
        out_words.len(),
        parents.len(),
        jacobians.len(),
        wholes.len(),
        birth_vertices.len(),
        birth_weights.len(),
        birth_shares.len(),
    ) {
        return Err(Refusal::TooShort);
    }
    write_children(
        d, r, size, kinds, firsts, pattern, names, sorted, along, coarse, out_cells, out_words,
        parents, jacobians, wholes,
    );
    write_births(
        d,
        r,
        n,
        fresh,
        keys,
        spare,
        birth_vertices,
        birth_weights,
        birth_shares,
    );
    Ok(Refinement {
        children: kinds as u32,
        vertices: n + born,
    })
}

// The refinement of m cells, which stand in `coarse`, along their words in `along`: the results, and how many children and how many vertices there are, or 11, 3, 6, 12.
// The pattern is made by the stepping rule where the caller wants it so; nothing else depends on it.
pub fn refined(
    d: usize,
    r: u32,
    n: u32,
    m: usize,
    coarse: &[u32],
    along: &[u32],
    out_cells: &mut [u32],
    out_words: &mut [u32],
    parents: &mut [u32],
    jacobians: &mut [f64],
    wholes: &mut [i32],
    birth_vertices: &mut [u32],
    birth_weights: &mut [u32],
    birth_shares: &mut [f64],
    pattern: &mut [u32],
    keys: &mut [u32],
    rows: &mut [u32],
    spare: &mut [u32],
    counts: &mut [u32],
    sorted: &mut [u32],
    firsts: &mut [u32],
    buckets: &mut [u32],
    by_steps: bool,
) -> Result<Refinement, Refusal>
    requires { Ready d r n m coarse.now along.now pattern.old keys.old rows.old spare.old counts.old sorted.old firsts.old buckets.old }
    ensures { Handed d r n m coarse.now along.now result out_cells.old out_cells.new out_words.old out_words.new
        parents.old parents.new jacobians.old jacobians.new wholes.old wholes.new
        birth_vertices.old birth_vertices.new birth_weights.old birth_weights.new birth_shares.old birth_shares.new }
{
    let found = seek(
        d, r, n, m, along, pattern, keys, rows, spare, counts, by_steps,
    )?;
    let len = found.children as usize * (d + 1);
    finish(
        d,
        r,
        n,
        m,
        found.births,
        coarse,
        along,
        out_cells,
        out_words,
        parents,
        jacobians,
        wholes,
        birth_vertices,
        birth_weights,
        birth_shares,
        pattern,
        keys,
        rows,
        spare,
        &counts[..len],
        &mut sorted[..len],
        firsts,
        buckets,
    )
}
