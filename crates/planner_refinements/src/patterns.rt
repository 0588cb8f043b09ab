// The corners of the children of one cell.
ghost use Rattle.refine_pattern.specs.Promise.{Corners};
ghost use Rattle.planner_passing.specs.Said.{Said, counted_code};

use planner_passing::said;

// The corners of the children of a cell of dimension d refined by r, each as its d+1 weights over the places of the cell's word: how many corners. Refused: 1, 11, 3 where
// there are too many children, 12 where the list is too short.
#[unsafe(no_mangle)]
pub extern "C" fn planner_corners(d: u32, r: u32, corners: &mut [u32]) -> u64
    ensures { Said counted_code (λ a. Corners d r a corners.old corners.new) result }
{
    said::counted(refine_pattern::corners(d, r, corners))
}

// As `planner_corners`, by the stepping rule and never from the table: it says and writes the same, on every input.
#[unsafe(no_mangle)]
pub extern "C" fn planner_corners_stepping(d: u32, r: u32, corners: &mut [u32]) -> u64
    ensures { Said counted_code (λ a. Corners d r a corners.old corners.new) result }
{
    said::counted(refine_pattern::corners_stepping(d, r, corners))
}
