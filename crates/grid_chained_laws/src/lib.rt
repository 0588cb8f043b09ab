// What the words of honest gluing have to do with those of the first mode: on grids with no reflected twisted axis they are the same words under other names, and the calls
// refuse alike. And what becomes of a projective plane's words: they are refused with 7. Definitions are in specs/, theorems in proofs/. Added by the port.
#![tactic(auto)]
