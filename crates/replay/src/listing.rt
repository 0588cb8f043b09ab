// The calls that hand out numbers: one or two lists of them.
use crate::show;
use planner_complexes::complexes::{planner_border, planner_cells, planner_edges, planner_facets};
use planner_complexes::orders::{planner_induced_orientation, planner_ordering};
use planner_grids::grids::{planner_cell_words, planner_triangulate_ordered};
use replay_reading::printing::numbers;

// The call, whichever of those with numbers 9 to 16 it is.
fn answer(
    kind: u64,
    d: u32,
    first: &[u32],
    second: &[u32],
    out: &mut [u32],
    more: &mut [u32],
    keys: &mut [u32],
    rows: &mut [u32],
    spare: &mut [u32],
    counts: &mut [u32],
) -> u64 {
    match kind {
        9 => planner_cells(d, first, out, keys, rows, spare, counts),
        10 => planner_edges(d, first, out, keys, rows, spare, counts),
        11 => planner_border(d, first, out, keys, rows, spare, counts),
        12 => planner_facets(d, first, out, more, keys, rows, spare, counts),
        13 => planner_ordering(d, first, second, out, keys, rows, spare, counts),
        14 => planner_induced_orientation(d, first, second, keys, rows, spare, counts),
        15 => planner_cell_words(d, first, out, keys, rows, spare, counts),
        _ => planner_triangulate_ordered(d, first, out, more, keys, rows, spare, counts),
    }
}

// How many numbers of the first result list belong to a row.
fn width(kind: u64, d: u32) -> usize {
    match kind {
        10 => 2,
        14 => 0,
        _ if refusal::MOST_DIMENSION < d => 0,
        11 | 12 => d as usize,
        _ => d as usize + 1,
    }
}

// How many numbers of the second result list belong to a row.
fn more_width(kind: u64, d: u32, said: u64) -> usize {
    match kind {
        12 => 4,
        16 if 2147483647 < said => width(kind, d),
        _ => 0,
    }
}

// A call, and what it handed out.
pub(crate) fn list(kind: u64, d: u32, first: &[u32], second: &[u32]) {
    let mut out = [7u32; 384];
    let mut more = [7u32; 512];
    let mut keys = [7u32; 896];
    let mut rows = [7u32; 384];
    let mut spare = [7u32; 384];
    let mut counts = [7u32; 384];
    let said = answer(
        kind,
        d,
        first,
        second,
        &mut out,
        &mut more,
        &mut keys,
        &mut rows,
        &mut spare,
        &mut counts,
    );
    let n = show::rows(said);
    show::answer(said);
    numbers(&out, n.saturating_mul(width(kind, d)));
    numbers(&more, n.saturating_mul(more_width(kind, d, said)));
    show::end();
}
