// Words of vertex numbers and orders of axes: sorting one word with its sign, going through lists of digits and axis orders.
// Follows crates/multiindex/src: `Sign`, `sort_signed` (sign.rs), `Permutation::all` (permutation.rs), `Radix::all` (cartesian.rs).
#![tactic(auto)]

pub mod cartesian;
pub mod permutation;
pub mod word;
