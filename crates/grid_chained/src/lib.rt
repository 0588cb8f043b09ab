// Honest gluing: grid points are one class exactly if a chain of gluing steps joins them, and the classes are numbered in the order of their least points. Added by the
// port: the Rust has only the rule of `quotient` (crates/regge/src/mesher/quotient.rs), which runs classes together where a twisted axis is itself reflected.
//
// Where a point lies at an end of a closed axis, a step along that axis turns round the axis itself and the axes of its set, whichever end it is. Such turns commute
// and keep the axes at whose ends a point lies, so a class has at most 2^d points: the point, turned along each choice of those axes. The quick engine goes through
// these choices. The plain one knows nothing of them: it goes along each step from the far end of an axis, as document 01 has it, and lowers the labels of the step's
// two ends to the lesser one until nothing changes. The two share nothing but the numbering.
//
// A second mode beside `quotient`'s rule, with its own kind of number. In the order of the modules:
//   check    1, 9, 8, 3, the points and the room needed
//   turn     a point at an end of an axis, and the point across it
//   quick    the least point of each point's class, by turns
//   step     where a step leaves from a point, and where it leads
//   plain    the least point of each point's class, by lowering labels
//   number   classes numbered by their least points
//   engines  the numbers by either engine
//   listing  the work of the calls that hand out a list
//   asking   the work of the calls that ask for one number
//   calls    `classes`, `closed_classes`, `reduce`, `nvertices`
#![tactic(auto)]

pub mod asking;
pub mod calls;
pub mod check;
pub mod engines;
pub mod listing;
pub mod number;
pub mod plain;
pub mod quick;
pub mod step;
pub mod turn;

// The number of a class of grid points: neither a grid vertex nor a vertex of the first mode. Only the calls of this mode lead to it, `reduce` for one point and
// the lists for all. 4294967295 stands for a number past the last grid point, and is no class.
#[derive(Clone, Copy)]
pub struct ClassVertex(pub u32);
