// How long the lists of each C function must be, told before it is called: result lists at most, working lists exactly, in the order of its parameters. With lists of these
// lengths the call never says 12 (proofs/Enough). The needs are those that the calls test, cited and not written again. The port added it: the Rust has no lent lists.
#![tactic(auto)]

ghost use Rattle.std.specs.Prelude.{◌≡◌};
ghost use Rattle.needs.specs.Needs.{worked};
ghost use Rattle.planner_needs.specs.Needs.{cells_need, edges_need, facets_need, border_need, signs_need, plain_need, ordered_need, turns_need};

use needs::{corners, key_room};

// planner_cells: cells, keys, rows, spare, counts.
#[unsafe(no_mangle)]
pub extern "C" fn planner_need_cells(d: u32, n: usize, need: &mut [usize; 5])
    ensures { need.new ≡ cells_need d (worked d n) }
{
    let m = corners(d, n);
    let k = key_room(d, m);
    *need = [m, k, m, m, m];
}

// planner_edges: edges, keys, rows, spare, counts.
#[unsafe(no_mangle)]
pub extern "C" fn planner_need_edges(d: u32, n: usize, need: &mut [usize; 5])
    ensures { need.new ≡ edges_need d (worked d n) }
{
    let m = corners(d, n);
    let k = key_room(d, m);
    *need = [k, k * 2, k, k, k];
}

// planner_facets: facets, table, keys, rows, spare, counts.
#[unsafe(no_mangle)]
pub extern "C" fn planner_need_facets(d: u32, n: usize, need: &mut [usize; 6])
    ensures { need.new ≡ facets_need d (worked d n) }
{
    let m = corners(d, n);
    let k = key_room(d, m);
    *need = [d as usize * m, 4 * m, k, m, m, m];
}

// planner_border: border, keys, rows, spare, counts.
#[unsafe(no_mangle)]
pub extern "C" fn planner_need_border(d: u32, n: usize, need: &mut [usize; 5])
    ensures { need.new ≡ border_need d (worked d n) }
{
    let m = corners(d, n);
    let k = key_room(d, m);
    *need = [d as usize * m, k, m, m, m];
}

// planner_orientation, planner_orientation_looks: signs, keys, rows, spare, counts.
#[unsafe(no_mangle)]
pub extern "C" fn planner_need_orientation(d: u32, n: usize, need: &mut [usize; 5])
    ensures { need.new ≡ signs_need d (worked d n) }
{
    let m = corners(d, n);
    let k = m * 5;
    let cells = m / (d as usize + 1);
    *need = [cells, k, m, m, m];
}

// planner_orient_by: keys, rows, spare, counts.
#[unsafe(no_mangle)]
pub extern "C" fn planner_need_orient_by(d: u32, n: usize, need: &mut [usize; 4])
    ensures { need.new ≡ plain_need (worked d n) }
{
    let m = corners(d, n);
    let k = m * 5;
    *need = [k, m, m, m];
}

// planner_ordering: listed, keys, rows, spare, counts.
#[unsafe(no_mangle)]
pub extern "C" fn planner_need_ordering(d: u32, n: usize, need: &mut [usize; 5])
    ensures { need.new ≡ ordered_need (worked d n) }
{
    let m = corners(d, n);
    let k = m * 5;
    *need = [m, k + m + m, m, m, m];
}

// planner_induced_orientation: keys, rows, spare, counts.
#[unsafe(no_mangle)]
pub extern "C" fn planner_need_induced_orientation(d: u32, n: usize, need: &mut [usize; 4])
    ensures { need.new ≡ turns_need (worked d n) }
{
    let m = corners(d, n);
    let k = m * 5;
    *need = [k + m + m, m, m, m];
}
