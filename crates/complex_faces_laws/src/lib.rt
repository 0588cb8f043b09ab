// Added by the port: what the faces of a checked word list are. Theorems over the definitions of complex_faces, in proofs/.
#![tactic(auto)]
