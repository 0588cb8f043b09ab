// What the definitions of a glued grid are worth: theorems over what the public calls promise, the number of its cells above all. Definitions are in specs/, theorems in proofs/.
// The port added it: laws, without code.
#![tactic(auto)]
