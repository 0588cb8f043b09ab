// What the definitions of refinement are worth: theorems over what the public calls promise, the composition law above all. Definitions are in specs/, theorems in proofs/.
// The port added it: laws, without code.
#![tactic(auto)]
