// Added by the port: children inherit direction. A parent's sign times the sign of the determinant of its child's Jacobian is coherent over the children, so signs need
// not be looked for again after a refinement. They need not be + at the lowest cell of a piece, as those of `orientation` are. Definitions are in specs/, theorems in
// proofs/; no code runs here.
//
// How the proof goes: a call that is not refused hands out the defined lists (proofs/Direction); the coarse words with their cells' signs are what refine_lattice calls
// Signs, and each child's word descends from its parent's (proofs/Children); there the theorem `children-inherit` holds, by determinants of lattice children; read back
// at the children's cells, a vertex's rank in the word is its place in the cell (proofs/Ranks), and signs are parities (proofs/Parity).
#![tactic(auto)]
