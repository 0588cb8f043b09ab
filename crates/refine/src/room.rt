// What the ten working lists need, whether they are long enough, and how they are made zero again.
ghost use Rattle.std.specs.Prelude.{◌≡◌, suc, ◌/◌, ◌≤◌, ◌<◌};
ghost use Rattle.refusal.specs.Limits.{most_cells, most_dimension, many_corners};
ghost use Rattle.refine.specs.Space as space;
ghost use Rattle.refine.specs.Work.{AllTen};

use super::Space;
use refusal::{MOST_CELLS, MOST_REFINEMENT, ROW_MOST};

// The most numbers in the row of a visit: a word's vertices and their weights.
const KEY: usize = 2 * ROW_MOST;
// How many weights there are at most, 0 with them.
const WEIGHTS: usize = MOST_REFINEMENT as usize + 1;

// The refinement number as the need counts it: 1 where it is outside 1 to `MOST_REFINEMENT`.
fn counted(r: u32) -> usize
    ensures { result ≡ space.counted r }
{
    if r == 0 {
        return 1;
    }
    if MOST_REFINEMENT < r {
        return 1;
    }
    r as usize
}

// How many children of m words there is room for: no more than the limit lets through.
fn children(d: usize, m: usize, r: u32) -> usize
    requires { (d ≤ most_dimension) × (m ≤ most_cells) }
    ensures { result ≡ space.children_room d m r }
{
    let many = m * multiindex::cartesian::count(d, counted(r));
    if MOST_CELLS < many {
        return MOST_CELLS;
    }
    many
}

// What a refinement by r of words with `len` corners needs of its working lists.
pub(crate) fn need(d: usize, len: usize, r: u32) -> Space
    requires { (d ≤ most_dimension) × (len / suc d ≤ most_cells) × (len < many_corners) }
    ensures { result ≡ space.space_of d len r }
{
    let most = children(d, len / (d + 1), r);
    let corners = most * (d + 1);
    Space {
        cells: len,
        along: len,
        pattern: corners * (d + 1),
        keys: 4 * len + KEY * corners,
        rows: len + corners,
        spare: len + corners,
        counts: len + corners + WEIGHTS,
        sorted: corners,
        firsts: most,
        buckets: len + corners,
    }
}

// Whether working lists of the lengths `have` are long enough for `need`.
pub(crate) fn enough(need: Space, have: Space) -> bool
    ensures { space.IsEnough need have result }
{
    if have.cells < need.cells {
        return false;
    }
    if have.along < need.along {
        return false;
    }
    if have.pattern < need.pattern {
        return false;
    }
    if have.keys < need.keys {
        return false;
    }
    if have.rows < need.rows {
        return false;
    }
    if have.spare < need.spare {
        return false;
    }
    if have.counts < need.counts {
        return false;
    }
    if have.sorted < need.sorted {
        return false;
    }
    if have.firsts < need.firsts {
        return false;
    }
    if have.buckets < need.buckets {
        return false;
    }
    true
}

// Makes all of the ten working lists zero.
pub(crate) fn clear_ten(
    cells: &mut [u32],
    along: &mut [u32],
    pattern: &mut [u32],
    keys: &mut [u32],
    rows: &mut [u32],
    spare: &mut [u32],
    counts: &mut [u32],
    sorted: &mut [u32],
    firsts: &mut [u32],
    buckets: &mut [u32],
)
    ensures { AllTen cells.old cells.new along.old along.new pattern.old pattern.new keys.old keys.new rows.old rows.new spare.old spare.new counts.old counts.new sorted.old sorted.new firsts.old firsts.new buckets.old buckets.new }
{
    lists::clear_four(cells, along, pattern, sorted);
    lists::clear_four(keys, rows, spare, counts);
    firsts.fill(0);
    buckets.fill(0);
}
