// How values pass between C and the proved calls: a grid as numbers and lists, an answer as one number of 64 bits. The crates `planner_…` above it hold the C functions, each
// a thin call of the proved one with its promise, which asks nothing of its caller; include/planner.h says it in C's words. The port added it: the Rust has no C face.
//
// One convention for all of them:
//   - what is returned: one 64-bit number, the refusal's number in its upper half and its place in the lower; upper half 0 is no refusal, and the lower half is the
//     answer: a count, a vertex, or 1 and 0 for yes and no; a count with a yes beside it has 2^31 added;
//   - the order of parameters: numbers, lists that are read, result lists, the working lists (four; ten for a refinement), arrays of fixed length;
//   - how a grid is given: d, a list with a count and a gluing for each axis, and a list of sides where the call reads them. A gluing is 0 (open), 256 (periodic) or
//     512 plus the mask of the reflected axes. An axis that is not in the list has no cells, a side that is not there is 0: both are refused as such.
#![tactic(auto)]

pub mod given;
pub mod said;
