// What the definitions of the map file are worth: each box has its two rings; they close, go counterclockwise and never cross the seam, exactly and as read from the
// file; each feature has its cell's number. Definitions are in specs/, theorems in proofs/. The port added it.
#![tactic(auto)]
