// How long the lists of the C functions of refinement must be, as planner_needs tells it for cells. With lists of these lengths the call never says 12 (proofs/Enough). The
// port added it: the Rust has no lent lists.
#![tactic(auto)]

ghost use Rattle.std.specs.Prelude.{◌≡◌, min, ◌≤◌};
ghost use Rattle.refusal.specs.Limits.{most_cells, most_dimension, most_vertices};
ghost use Rattle.refine.specs.Space as space;
ghost use Rattle.needs.specs.Needs.{worked};
ghost use Rattle.planner_needs_refinement.specs.Needs.{refine_need, corners_need};
ghost use Rattle.planner_needs_refinement.specs.Work.{Told};

use needs::corners;
use refusal::{MOST_CELLS, MOST_DIMENSION, MOST_REFINEMENT, MOST_VERTICES, ROW_MOST, SQUARE_MOST};

// The refinement number as the need counts it: 1 where it is refused.
fn counted(r: u32) -> usize
    ensures { result ≡ space.counted r }
{
    if r == 0 {
        return 1;
    }
    if MOST_REFINEMENT < r {
        return 1;
    }
    r as usize
}

// How many children of m words there is room for.
fn children(d: usize, m: usize, r: u32) -> usize
    requires { (d ≤ most_dimension) × (m ≤ most_cells) }
    ensures { result ≡ space.children_room d m r }
{
    let many = m * multiindex::cartesian::count(d, counted(r));
    if MOST_CELLS < many {
        return MOST_CELLS;
    }
    many
}

// How many children of words with n corners there is room for.
fn children_of(d: u32, r: u32, n: usize) -> usize
    ensures { Told d r n result }
{
    let m = corners(d, n);
    if m == 0 {
        return 0;
    }
    children(d as usize, m / (d as usize + 1), r)
}

// How many new vertices children with so many corners have at most.
fn births(corners: usize) -> usize
    ensures { result ≡ min corners most_vertices }
{
    if corners < MOST_VERTICES {
        return corners;
    }
    MOST_VERTICES
}

// planner_refine, planner_refine_with, planner_refine_by_steps, planner_refine_with_by_steps: out_cells, out_words, parents, jacobians, wholes, birth_vertices,
// birth_weights, birth_shares, cells, along, pattern, keys, rows, spare, counts, sorted, firsts, buckets.
#[unsafe(no_mangle)]
pub extern "C" fn planner_need_refine(d: u32, r: u32, n: usize, need: &mut [usize; 18])
    ensures { need.new ≡ refine_need d (worked d n) r }
{
    let m = corners(d, n);
    let c = children_of(d, r, n);
    let w = d as usize + 1;
    let k = c * w;
    let b = births(k) * w;
    let j = c * SQUARE_MOST;
    let t = m + k;
    *need = [
        k,
        k,
        c,
        j,
        j,
        b,
        b,
        b,
        m,
        m,
        k * w,
        4 * m + 2 * ROW_MOST * k,
        t,
        t,
        t + (MOST_REFINEMENT as usize + 1),
        k,
        c,
        t,
    ];
}

// planner_corners, planner_corners_stepping: corners.
#[unsafe(no_mangle)]
pub extern "C" fn planner_need_corners(d: u32, r: u32, need: &mut [usize; 1])
    ensures { need.new ≡ corners_need d r }
{
    if MOST_DIMENSION < d {
        *need = [0];
        return;
    }
    let w = d as usize + 1;
    let c = children(d as usize, 1, r);
    *need = [c * w * w];
}
