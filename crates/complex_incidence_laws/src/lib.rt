// Added by the port: the index from vertices to cells when cells go: taking the gone cells out of it gives the index of the cells that stay, built afresh. A theorem, in proofs/.
#![tactic(auto)]
