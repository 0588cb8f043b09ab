// The calls on grids as C functions. The convention of all C functions stands in planner_passing. The port added it: the Rust has no C face.
#![tactic(auto)]

pub mod grids;
pub mod lengths;
