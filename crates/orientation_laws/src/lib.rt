// Added by the port: signs that are coherent, given to the calls of orientation.rs. A theorem elsewhere that ends in coherent signs ends here in what the calls say.
// Definitions are in specs/, theorems in proofs/.
#![tactic(auto)]
