// The calls of refinement.
ghost use Rattle.std.specs.Prelude.{◌≡◌};
ghost use Rattle.complex.specs.Cells.{cells_of};
ghost use Rattle.ordering_words.specs.Order.{Orders};
ghost use Rattle.refine_results.specs.Refined.{order_words};
ghost use Rattle.refine.specs.Promise.{Refining};
ghost use Rattle.planner_passing.specs.Said.{Said, refined_code, refined_vertices};

use planner_passing::said;

// The refinement by r along the cells' sorted vertices: how many children; the number of vertices goes to `vertices`. Refused: 1, 2, 3, 4, 6, 5, then 12 where a working list
// is too short, then 7, 11, 3 and 6 by the refined complex, 12 where a result list is too short.
#[unsafe(no_mangle)]
pub extern "C" fn planner_refine(
    d: u32,
    r: u32,
    words: &[u32],
    out_cells: &mut [u32],
    out_words: &mut [u32],
    parents: &mut [u32],
    jacobians: &mut [f64],
    wholes: &mut [i32],
    birth_vertices: &mut [u32],
    birth_weights: &mut [u32],
    birth_shares: &mut [f64],
    cells: &mut [u32],
    along: &mut [u32],
    pattern: &mut [u32],
    keys: &mut [u32],
    rows: &mut [u32],
    spare: &mut [u32],
    counts: &mut [u32],
    sorted: &mut [u32],
    firsts: &mut [u32],
    buckets: &mut [u32],
    vertices: &mut [u32; 1],
) -> u64
    ensures { Said refined_code (λ a. Refining d words.now r (Unit {0}) (cells_of d words.now) a out_cells.old out_cells.new out_words.old out_words.new parents.old parents.new jacobians.old jacobians.new wholes.old wholes.new birth_vertices.old birth_vertices.new birth_weights.old birth_weights.new birth_shares.old birth_shares.new cells.old cells.new along.old along.new pattern.old pattern.new keys.old keys.new rows.old rows.new spare.old spare.new counts.old counts.new sorted.old sorted.new firsts.old firsts.new buckets.old buckets.new × (vertices.new ≡ refined_vertices a vertices.old)) result }
{
    let made = refine::refine(
        d,
        words,
        r,
        out_cells,
        out_words,
        parents,
        jacobians,
        wholes,
        birth_vertices,
        birth_weights,
        birth_shares,
        cells,
        along,
        pattern,
        keys,
        rows,
        spare,
        counts,
        sorted,
        firsts,
        buckets,
    );
    said::refined(made, vertices)
}

// The refinement by r along the caller's word for each cell: as `planner_refine`, with 16 after 7 where the order words are not one for each cell.
#[unsafe(no_mangle)]
pub extern "C" fn planner_refine_with(
    d: u32,
    r: u32,
    words: &[u32],
    order: &[u32],
    out_cells: &mut [u32],
    out_words: &mut [u32],
    parents: &mut [u32],
    jacobians: &mut [f64],
    wholes: &mut [i32],
    birth_vertices: &mut [u32],
    birth_weights: &mut [u32],
    birth_shares: &mut [f64],
    cells: &mut [u32],
    along: &mut [u32],
    pattern: &mut [u32],
    keys: &mut [u32],
    rows: &mut [u32],
    spare: &mut [u32],
    counts: &mut [u32],
    sorted: &mut [u32],
    firsts: &mut [u32],
    buckets: &mut [u32],
    vertices: &mut [u32; 1],
) -> u64
    ensures { Said refined_code (λ a. Refining d words.now r (Orders d (cells_of d words.now) order.now) (order_words d words.now order.now) a out_cells.old out_cells.new out_words.old out_words.new parents.old parents.new jacobians.old jacobians.new wholes.old wholes.new birth_vertices.old birth_vertices.new birth_weights.old birth_weights.new birth_shares.old birth_shares.new cells.old cells.new along.old along.new pattern.old pattern.new keys.old keys.new rows.old rows.new spare.old spare.new counts.old counts.new sorted.old sorted.new firsts.old firsts.new buckets.old buckets.new × (vertices.new ≡ refined_vertices a vertices.old)) result }
{
    let made = refine::refine_with(
        d,
        words,
        order,
        r,
        out_cells,
        out_words,
        parents,
        jacobians,
        wholes,
        birth_vertices,
        birth_weights,
        birth_shares,
        cells,
        along,
        pattern,
        keys,
        rows,
        spare,
        counts,
        sorted,
        firsts,
        buckets,
    );
    said::refined(made, vertices)
}

// As `planner_refine`, with the pattern made by the stepping rule and never read from the table: it says and writes the same, on every input.
#[unsafe(no_mangle)]
pub extern "C" fn planner_refine_by_steps(
    d: u32,
    r: u32,
    words: &[u32],
    out_cells: &mut [u32],
    out_words: &mut [u32],
    parents: &mut [u32],
    jacobians: &mut [f64],
    wholes: &mut [i32],
    birth_vertices: &mut [u32],
    birth_weights: &mut [u32],
    birth_shares: &mut [f64],
    cells: &mut [u32],
    along: &mut [u32],
    pattern: &mut [u32],
    keys: &mut [u32],
    rows: &mut [u32],
    spare: &mut [u32],
    counts: &mut [u32],
    sorted: &mut [u32],
    firsts: &mut [u32],
    buckets: &mut [u32],
    vertices: &mut [u32; 1],
) -> u64
    ensures { Said refined_code (λ a. Refining d words.now r (Unit {0}) (cells_of d words.now) a out_cells.old out_cells.new out_words.old out_words.new parents.old parents.new jacobians.old jacobians.new wholes.old wholes.new birth_vertices.old birth_vertices.new birth_weights.old birth_weights.new birth_shares.old birth_shares.new cells.old cells.new along.old along.new pattern.old pattern.new keys.old keys.new rows.old rows.new spare.old spare.new counts.old counts.new sorted.old sorted.new firsts.old firsts.new buckets.old buckets.new × (vertices.new ≡ refined_vertices a vertices.old)) result }
{
    let made = refine::refine_by_steps(
        d,
        words,
        r,
        out_cells,
        out_words,
        parents,
        jacobians,
        wholes,
        birth_vertices,
        birth_weights,
        birth_shares,
        cells,
        along,
        pattern,
        keys,
        rows,
        spare,
        counts,
        sorted,
        firsts,
        buckets,
    );
    said::refined(made, vertices)
}

// As `planner_refine_with`, with the pattern made by the stepping rule and never read from the table: it says and writes the same, on every input.
#[unsafe(no_mangle)]
pub extern "C" fn planner_refine_with_by_steps(
    d: u32,
    r: u32,
    words: &[u32],
    order: &[u32],
    out_cells: &mut [u32],
    out_words: &mut [u32],
    parents: &mut [u32],
    jacobians: &mut [f64],
    wholes: &mut [i32],
    birth_vertices: &mut [u32],
    birth_weights: &mut [u32],
    birth_shares: &mut [f64],
    cells: &mut [u32],
    along: &mut [u32],
    pattern: &mut [u32],
    keys: &mut [u32],
    rows: &mut [u32],
    spare: &mut [u32],
    counts: &mut [u32],
    sorted: &mut [u32],
    firsts: &mut [u32],
    buckets: &mut [u32],
    vertices: &mut [u32; 1],
) -> u64
    ensures { Said refined_code (λ a. Refining d words.now r (Orders d (cells_of d words.now) order.now) (order_words d words.now order.now) a out_cells.old out_cells.new out_words.old out_words.new parents.old parents.new jacobians.old jacobians.new wholes.old wholes.new birth_vertices.old birth_vertices.new birth_weights.old birth_weights.new birth_shares.old birth_shares.new cells.old cells.new along.old along.new pattern.old pattern.new keys.old keys.new rows.old rows.new spare.old spare.new counts.old counts.new sorted.old sorted.new firsts.old firsts.new buckets.old buckets.new × (vertices.new ≡ refined_vertices a vertices.old)) result }
{
    let made = refine::refine_with_by_steps(
        d,
        words,
        order,
        r,
        out_cells,
        out_words,
        parents,
        jacobians,
        wholes,
        birth_vertices,
        birth_weights,
        birth_shares,
        cells,
        along,
        pattern,
        keys,
        rows,
        spare,
        counts,
        sorted,
        firsts,
        buckets,
    );
    said::refined(made, vertices)
}
