// The public calls of refinement: every cell of a complex is refined by R, along its sorted vertices or along a caller's word for it.
// Follows `Complex::refine` and `refine_with` (crates/simplicial/src/topology/refine.rs).
//
// What the working lists hold, one phase after the other:
//   cells    -                the coarse cells
//   along    -                -                      the words refined by
//   pattern  -                -                      the weights of the children's corners in one cell
//   keys     sorted words     facet rows, order      the supports of all corners
//   rows     cells            mates                  classes                        order of the children
//   spare    first rows       first rows             first visits of the births
//   counts   buckets          classes                the children's words, in visiting order
//   sorted   -                -                      -                              the children's words sorted
//   firsts   -                -                      -                              the first child of each refined cell
//   buckets  -                -                      -                              buckets
#![tactic(auto)]

mod coarse;
mod room;

ghost use Rattle.complex.specs.Cells.{cells_of};
ghost use Rattle.ordering_words.specs.Order.{Orders};
ghost use Rattle.refine_results.specs.Refined.{order_words};
ghost use Rattle.refine.specs.WorkReading.{OrderedBy, words_along};
ghost use Rattle.refine.specs.Promise.{Refining};
ghost use Rattle.refine.specs.Work.{Working, Worked, AllTen};

use refine_results::Refinement;
use refusal::Refusal;

// Lengths of the ten working lists: what a call needs of them, or what it is lent.
#[derive(Clone, Copy)]
pub struct Space {
    pub cells: usize,
    pub along: usize,
    pub pattern: usize,
    pub keys: usize,
    pub rows: usize,
    pub spare: usize,
    pub counts: usize,
    pub sorted: usize,
    pub firsts: usize,
    pub buckets: usize,
}

// The work, in working lists of just the sizes that are needed. Nothing is promised of them.
fn work(
    with_order: bool,
    d: usize,
    given: &[u32],
    order: &[u32],
    r: u32,
    out_cells: &mut [u32],
    out_words: &mut [u32],
    parents: &mut [u32],
    jacobians: &mut [f64],
    wholes: &mut [i32],
    birth_vertices: &mut [u32],
    birth_weights: &mut [u32],
    birth_shares: &mut [f64],
    cells: &mut [u32],
    along: &mut [u32],
    pattern: &mut [u32],
    keys: &mut [u32],
    rows: &mut [u32],
    spare: &mut [u32],
    counts: &mut [u32],
    sorted: &mut [u32],
    firsts: &mut [u32],
    buckets: &mut [u32],
    by_steps: bool,
) -> Result<Refinement, Refusal>
    requires { Working d given.now r cells.old along.old pattern.old keys.old rows.old spare.old counts.old sorted.old firsts.old buckets.old }
    ensures { Worked d given.now r (OrderedBy with_order d given.now order.now) (words_along with_order d given.now order.now) result out_cells.old out_cells.new out_words.old out_words.new parents.old parents.new jacobians.old jacobians.new wholes.old wholes.new birth_vertices.old birth_vertices.new birth_weights.old birth_weights.new birth_shares.old birth_shares.new }
{
    let m = coarse::read(
        with_order, d, given, order, cells, along, keys, rows, spare, counts,
    )?;
    let n = coarse::vertices(given);
    refine_results::refined(
        d,
        r,
        n,
        m as usize,
        cells,
        along,
        out_cells,
        out_words,
        parents,
        jacobians,
        wholes,
        birth_vertices,
        birth_weights,
        birth_shares,
        pattern,
        keys,
        rows,
        spare,
        counts,
        sorted,
        firsts,
        buckets,
        by_steps,
    )
}

// The work, and then the working lists are all zero.
fn cleared(
    with_order: bool,
    d: usize,
    given: &[u32],
    order: &[u32],
    r: u32,
    out_cells: &mut [u32],
    out_words: &mut [u32],
    parents: &mut [u32],
    jacobians: &mut [f64],
    wholes: &mut [i32],
    birth_vertices: &mut [u32],
    birth_weights: &mut [u32],
    birth_shares: &mut [f64],
    cells: &mut [u32],
    along: &mut [u32],
    pattern: &mut [u32],
    keys: &mut [u32],
    rows: &mut [u32],
    spare: &mut [u32],
    counts: &mut [u32],
    sorted: &mut [u32],
    firsts: &mut [u32],
    buckets: &mut [u32],
    by_steps: bool,
) -> Result<Refinement, Refusal>
    requires { Working d given.now r cells.old along.old pattern.old keys.old rows.old spare.old counts.old sorted.old firsts.old buckets.old }
    ensures work { Worked d given.now r (OrderedBy with_order d given.now order.now) (words_along with_order d given.now order.now) result out_cells.old out_cells.new out_words.old out_words.new parents.old parents.new jacobians.old jacobians.new wholes.old wholes.new birth_vertices.old birth_vertices.new birth_weights.old birth_weights.new birth_shares.old birth_shares.new }
    ensures room { AllTen cells.old cells.new along.old along.new pattern.old pattern.new keys.old keys.new rows.old rows.new spare.old spare.new counts.old counts.new sorted.old sorted.new firsts.old firsts.new buckets.old buckets.new }
{
    let said = work(
        with_order,
        d,
        given,
        order,
        r,
        out_cells,
        out_words,
        parents,
        jacobians,
        wholes,
        birth_vertices,
        birth_weights,
        birth_shares,
        cells,
        along,
        pattern,
        keys,
        rows,
        spare,
        counts,
        sorted,
        firsts,
        buckets,
        by_steps,
    );
    room::clear_ten(
        cells, along, pattern, keys, rows, spare, counts, sorted, firsts, buckets,
    );
    said
}

// All four calls: the refinement by r along the words of an order where there is one, else along the cells' sorted vertices.
fn refinement(
    with_order: bool,
    d: u32,
    given: &[u32],
    order: &[u32],
    r: u32,
    out_cells: &mut [u32],
    out_words: &mut [u32],
    parents: &mut [u32],
    jacobians: &mut [f64],
    wholes: &mut [i32],
    birth_vertices: &mut [u32],
    birth_weights: &mut [u32],
    birth_shares: &mut [f64],
    cells: &mut [u32],
    along: &mut [u32],
    pattern: &mut [u32],
    keys: &mut [u32],
    rows: &mut [u32],
    spare: &mut [u32],
    counts: &mut [u32],
    sorted: &mut [u32],
    firsts: &mut [u32],
    buckets: &mut [u32],
    by_steps: bool,
) -> Result<Refinement, Refusal>
    ensures { Refining d given.now r (OrderedBy with_order d given.now order.now) (words_along with_order d given.now order.now) result out_cells.old out_cells.new out_words.old out_words.new parents.old parents.new jacobians.old jacobians.new wholes.old wholes.new birth_vertices.old birth_vertices.new birth_weights.old birth_weights.new birth_shares.old birth_shares.new cells.old cells.new along.old along.new pattern.old pattern.new keys.old keys.new rows.old rows.new spare.old spare.new counts.old counts.new sorted.old sorted.new firsts.old firsts.new buckets.old buckets.new }
{
    complex::check_cells(d, given)?;
    let dim = d as usize;
    let need = room::need(dim, given.len(), r);
    let have = Space {
        cells: cells.len(),
        along: along.len(),
        pattern: pattern.len(),
        keys: keys.len(),
        rows: rows.len(),
        spare: spare.len(),
        counts: counts.len(),
        sorted: sorted.len(),
        firsts: firsts.len(),
        buckets: buckets.len(),
    };
    if !room::enough(need, have) {
        return Err(Refusal::TooShort);
    }
    let a = need.cells;
    let b = need.along;
    let p = need.pattern;
    let k = need.keys;
    let o = need.rows;
    let s = need.spare;
    let c = need.counts;
    let t = need.sorted;
    let f = need.firsts;
    let u = need.buckets;
    cleared(
        with_order,
        dim,
        given,
        order,
        r,
        out_cells,
        out_words,
        parents,
        jacobians,
        wholes,
        birth_vertices,
        birth_weights,
        birth_shares,
        &mut cells[..a],
        &mut along[..b],
        &mut pattern[..p],
        &mut keys[..k],
        &mut rows[..o],
        &mut spare[..s],
        &mut counts[..c],
        &mut sorted[..t],
        &mut firsts[..f],
        &mut buckets[..u],
        by_steps,
    )
}

// The refinement by r along the cells' sorted vertices: the refined cells in colex order with each child's word, parent and Jacobian, and the births. Refused: 1, 2, 3, 4,
// 6, 5, then 12 where a working list is too short (`space_of`), then 7, 11, 3 and 6 by the refined complex, 12 where a result list is too short. A refusal changes no
// result list; from the room's test on what is needed of the working lists is zero at the end.
pub fn refine(
    d: u32,
    given: &[u32],
    r: u32,
    out_cells: &mut [u32],
    out_words: &mut [u32],
    parents: &mut [u32],
    jacobians: &mut [f64],
    wholes: &mut [i32],
    birth_vertices: &mut [u32],
    birth_weights: &mut [u32],
    birth_shares: &mut [f64],
    cells: &mut [u32],
    along: &mut [u32],
    pattern: &mut [u32],
    keys: &mut [u32],
    rows: &mut [u32],
    spare: &mut [u32],
    counts: &mut [u32],
    sorted: &mut [u32],
    firsts: &mut [u32],
    buckets: &mut [u32],
) -> Result<Refinement, Refusal>
    ensures { Refining d given.now r (Unit {0}) (cells_of d given.now) result out_cells.old out_cells.new out_words.old out_words.new parents.old parents.new jacobians.old jacobians.new wholes.old wholes.new birth_vertices.old birth_vertices.new birth_weights.old birth_weights.new birth_shares.old birth_shares.new cells.old cells.new along.old along.new pattern.old pattern.new keys.old keys.new rows.old rows.new spare.old spare.new counts.old counts.new sorted.old sorted.new firsts.old firsts.new buckets.old buckets.new }
{
    refinement(
        false,
        d,
        given,
        given,
        r,
        out_cells,
        out_words,
        parents,
        jacobians,
        wholes,
        birth_vertices,
        birth_weights,
        birth_shares,
        cells,
        along,
        pattern,
        keys,
        rows,
        spare,
        counts,
        sorted,
        firsts,
        buckets,
        false,
    )
}

// The refinement by r along the caller's word for each cell: as `refine`, with 16 after 7 where the order words are not one for each cell.
pub fn refine_with(
    d: u32,
    given: &[u32],
    order: &[u32],
    r: u32,
    out_cells: &mut [u32],
    out_words: &mut [u32],
    parents: &mut [u32],
    jacobians: &mut [f64],
    wholes: &mut [i32],
    birth_vertices: &mut [u32],
    birth_weights: &mut [u32],
    birth_shares: &mut [f64],
    cells: &mut [u32],
    along: &mut [u32],
    pattern: &mut [u32],
    keys: &mut [u32],
    rows: &mut [u32],
    spare: &mut [u32],
    counts: &mut [u32],
    sorted: &mut [u32],
    firsts: &mut [u32],
    buckets: &mut [u32],
) -> Result<Refinement, Refusal>
    ensures { Refining d given.now r (Orders d (cells_of d given.now) order.now) (order_words d given.now order.now) result out_cells.old out_cells.new out_words.old out_words.new parents.old parents.new jacobians.old jacobians.new wholes.old wholes.new birth_vertices.old birth_vertices.new birth_weights.old birth_weights.new birth_shares.old birth_shares.new cells.old cells.new along.old along.new pattern.old pattern.new keys.old keys.new rows.old rows.new spare.old spare.new counts.old counts.new sorted.old sorted.new firsts.old firsts.new buckets.old buckets.new }
{
    refinement(
        true,
        d,
        given,
        order,
        r,
        out_cells,
        out_words,
        parents,
        jacobians,
        wholes,
        birth_vertices,
        birth_weights,
        birth_shares,
        cells,
        along,
        pattern,
        keys,
        rows,
        spare,
        counts,
        sorted,
        firsts,
        buckets,
        false,
    )
}

// As `refine`, with the pattern made by the stepping rule and never read from the table: it says and writes the same, on every input.
pub fn refine_by_steps(
    d: u32,
    given: &[u32],
    r: u32,
    out_cells: &mut [u32],
    out_words: &mut [u32],
    parents: &mut [u32],
    jacobians: &mut [f64],
    wholes: &mut [i32],
    birth_vertices: &mut [u32],
    birth_weights: &mut [u32],
    birth_shares: &mut [f64],
    cells: &mut [u32],
    along: &mut [u32],
    pattern: &mut [u32],
    keys: &mut [u32],
    rows: &mut [u32],
    spare: &mut [u32],
    counts: &mut [u32],
    sorted: &mut [u32],
    firsts: &mut [u32],
    buckets: &mut [u32],
) -> Result<Refinement, Refusal>
    ensures { Refining d given.now r (Unit {0}) (cells_of d given.now) result out_cells.old out_cells.new out_words.old out_words.new parents.old parents.new jacobians.old jacobians.new wholes.old wholes.new birth_vertices.old birth_vertices.new birth_weights.old birth_weights.new birth_shares.old birth_shares.new cells.old cells.new along.old along.new pattern.old pattern.new keys.old keys.new rows.old rows.new spare.old spare.new counts.old counts.new sorted.old sorted.new firsts.old firsts.new buckets.old buckets.new }
{
    refinement(
        false,
        d,
        given,
        given,
        r,
        out_cells,
        out_words,
        parents,
        jacobians,
        wholes,
        birth_vertices,
        birth_weights,
        birth_shares,
        cells,
        along,
        pattern,
        keys,
        rows,
        spare,
        counts,
        sorted,
        firsts,
        buckets,
        true,
    )
}

// As `refine_with`, with the pattern made by the stepping rule and never read from the table: it says and writes the same, on every input.
pub fn refine_with_by_steps(
    d: u32,
    given: &[u32],
    order: &[u32],
    r: u32,
    out_cells: &mut [u32],
    out_words: &mut [u32],
    parents: &mut [u32],
    jacobians: &mut [f64],
    wholes: &mut [i32],
    birth_vertices: &mut [u32],
    birth_weights: &mut [u32],
    birth_shares: &mut [f64],
    cells: &mut [u32],
    along: &mut [u32],
    pattern: &mut [u32],
    keys: &mut [u32],
    rows: &mut [u32],
    spare: &mut [u32],
    counts: &mut [u32],
    sorted: &mut [u32],
    firsts: &mut [u32],
    buckets: &mut [u32],
) -> Result<Refinement, Refusal>
    ensures { Refining d given.now r (Orders d (cells_of d given.now) order.now) (order_words d given.now order.now) result out_cells.old out_cells.new out_words.old out_words.new parents.old parents.new jacobians.old jacobians.new wholes.old wholes.new birth_vertices.old birth_vertices.new birth_weights.old birth_weights.new birth_shares.old birth_shares.new cells.old cells.new along.old along.new pattern.old pattern.new keys.old keys.new rows.old rows.new spare.old spare.new counts.old counts.new sorted.old sorted.new firsts.old firsts.new buckets.old buckets.new }
{
    refinement(
        true,
        d,
        given,
        order,
        r,
        out_cells,
        out_words,
        parents,
        jacobians,
        wholes,
        birth_vertices,
        birth_weights,
        birth_shares,
        cells,
        along,
        pattern,
        keys,
        rows,
        spare,
        counts,
        sorted,
        firsts,
        buckets,
        true,
    )
}
