// Added by the port, beside skeleton.rs and incidence.rs: the faces of cells by dimension, the cells at each vertex, and the boundary operator: what they are, and that the boundary of a boundary is zero. Definitions are in specs/,
// theorems in proofs/.
#![tactic(auto)]
