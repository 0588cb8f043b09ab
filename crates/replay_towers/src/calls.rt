// The refinement calls, with room for every complex of the limits.
ghost use Rattle.std.specs.Prelude.{◌≡◌, ◌≤◌};

use refine_results::Refinement;
use refusal::Refusal;

// How many cells and vertices a refinement has; none where it was refused.
#[derive(Clone, Copy)]
pub(crate) struct Sizes {
    pub(crate) cells: usize,
    pub(crate) vertices: usize,
}

// What a call said.
fn told(said: Result<Refinement, Refusal>) -> Sizes
    ensures { (result.cells ≤ 4096) × (result.vertices ≤ 4096) }
{
    match said {
        Ok(Refinement { children, vertices }) if children <= 4096 && vertices <= 4096 => Sizes {
            cells: children as usize,
            vertices: vertices as usize,
        },
        _ => Sizes {
            cells: 0,
            vertices: 0,
        },
    }
}

// The refinement by r along the cells' sorted vertices.
fn by_numbers(
    d: u32,
    given: &[u32],
    r: u32,
    cells: &mut [u32],
    words: &mut [u32],
    vertices: &mut [u32],
    weights: &mut [u32],
) -> Sizes
    ensures { (result.cells ≤ 4096) × (result.vertices ≤ 4096) }
{
    let mut parents = [0u32; 4096];
    let mut jacobians = [0.0f64; 36864];
    let mut wholes = [0i32; 36864];
    let mut shares = [0.0f64; 16384];
    let mut coarse = [0u32; 16384];
    let mut along = [0u32; 16384];
    let mut pattern = [0u32; 65536];
    let mut keys = [0u32; 196608];
    let mut rows = [0u32; 32768];
    let mut spare = [0u32; 32768];
    let mut counts = [0u32; 32833];
    let mut sorted = [0u32; 16384];
    let mut firsts = [0u32; 4096];
    let mut buckets = [0u32; 32768];
    told(refine::refine(
        d,
        given,
        r,
        cells,
        words,
        &mut parents,
        &mut jacobians,
        &mut wholes,
        vertices,
        weights,
        &mut shares,
        &mut coarse,
        &mut along,
        &mut pattern,
        &mut keys,
        &mut rows,
        &mut spare,
        &mut counts,
        &mut sorted,
        &mut firsts,
        &mut buckets,
    ))
}

// The refinement by r along the order's words.
fn by_order(
    d: u32,
    given: &[u32],
    order: &[u32],
    r: u32,
    cells: &mut [u32],
    words: &mut [u32],
    vertices: &mut [u32],
    weights: &mut [u32],
) -> Sizes
    ensures { (result.cells ≤ 4096) × (result.vertices ≤ 4096) }
{
    let mut parents = [0u32; 4096];
    let mut jacobians = [0.0f64; 36864];
    let mut wholes = [0i32; 36864];
    let mut shares = [0.0f64; 16384];
    let mut coarse = [0u32; 16384];
    let mut along = [0u32; 16384];
    let mut pattern = [0u32; 65536];
    let mut keys = [0u32; 196608];
    let mut rows = [0u32; 32768];
    let mut spare = [0u32; 32768];
    let mut counts = [0u32; 32833];
    let mut sorted = [0u32; 16384];
    let mut firsts = [0u32; 4096];
    let mut buckets = [0u32; 32768];
    told(refine::refine_with(
        d,
        given,
        order,
        r,
        cells,
        words,
        &mut parents,
        &mut jacobians,
        &mut wholes,
        vertices,
        weights,
        &mut shares,
        &mut coarse,
        &mut along,
        &mut pattern,
        &mut keys,
        &mut rows,
        &mut spare,
        &mut counts,
        &mut sorted,
        &mut firsts,
        &mut buckets,
    ))
}

// The refinement by r: along the order's words, or along the cells' sorted vertices where there is no order.
pub(crate) fn refined(
    d: u32,
    given: &[u32],
    order: &[u32],
    r: u32,
    cells: &mut [u32],
    words: &mut [u32],
    vertices: &mut [u32],
    weights: &mut [u32],
) -> Sizes
    ensures { (result.cells ≤ 4096) × (result.vertices ≤ 4096) }
{
    if order.len() == 0 {
        return by_numbers(d, given, r, cells, words, vertices, weights);
    }
    by_order(d, given, order, r, cells, words, vertices, weights)
}
