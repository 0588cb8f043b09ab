// The two calls, with room for every refinement of 64 numbers, and for the results of 128 children.
use crate::show;

// The refinement by r along the cells' sorted vertices, and what it handed out.
pub(crate) fn by_numbers(d: u32, given: &[u32], r: u32) {
    let mut cells = [7u32; 512];
    let mut words = [7u32; 512];
    let mut parents = [7u32; 128];
    let mut jacobians = [7.0f64; 1152];
    let mut wholes = [7i32; 1152];
    let mut vertices = [7u32; 512];
    let mut weights = [7u32; 512];
    let mut shares = [7.0f64; 512];
    let mut coarse = [0u32; 64];
    let mut along = [0u32; 64];
    let mut pattern = [0u32; 65536];
    let mut keys = [0u32; 131328];
    let mut rows = [0u32; 16448];
    let mut spare = [0u32; 16448];
    let mut counts = [0u32; 16513];
    let mut sorted = [0u32; 16384];
    let mut firsts = [0u32; 4096];
    let mut buckets = [0u32; 16448];
    let said = refine::refine(
        d,
        given,
        r,
        &mut cells,
        &mut words,
        &mut parents,
        &mut jacobians,
        &mut wholes,
        &mut vertices,
        &mut weights,
        &mut shares,
        &mut coarse,
        &mut along,
        &mut pattern,
        &mut keys,
        &mut rows,
        &mut spare,
        &mut counts,
        &mut sorted,
        &mut firsts,
        &mut buckets,
    );
    let sizes = show::answer(said, d, given);
    show::children(sizes, &cells, &words, &parents, &jacobians, &wholes);
    show::births(sizes, &vertices, &weights, &shares);
}

// The refinement by r along the order's words, and what it handed out.
pub(crate) fn by_order(d: u32, given: &[u32], order: &[u32], r: u32) {
    let mut cells = [7u32; 512];
    let mut words = [7u32; 512];
    let mut parents = [7u32; 128];
    let mut jacobians = [7.0f64; 1152];
    let mut wholes = [7i32; 1152];
    let mut vertices = [7u32; 512];
    let mut weights = [7u32; 512];
    let mut shares = [7.0f64; 512];
    let mut coarse = [0u32; 64];
    let mut along = [0u32; 64];
    let mut pattern = [0u32; 65536];
    let mut keys = [0u32; 131328];
    let mut rows = [0u32; 16448];
    let mut spare = [0u32; 16448];
    let mut counts = [0u32; 16513];
    let mut sorted = [0u32; 16384];
    let mut firsts = [0u32; 4096];
    let mut buckets = [0u32; 16448];
    let said = refine::refine_with(
        d,
        given,
        order,
        r,
        &mut cells,
        &mut words,
        &mut parents,
        &mut jacobians,
        &mut wholes,
        &mut vertices,
        &mut weights,
        &mut shares,
        &mut coarse,
        &mut along,
        &mut pattern,
        &mut keys,
        &mut rows,
        &mut spare,
        &mut counts,
        &mut sorted,
        &mut firsts,
        &mut buckets,
    );
    let sizes = show::answer(said, d, given);
    show::children(sizes, &cells, &words, &parents, &jacobians, &wholes);
    show::births(sizes, &vertices, &weights, &shares);
}
