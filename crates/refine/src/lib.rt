// The relation of image and state to the plain unit, and the claims about the code. Definitions in specs/, proofs in proofs/.

#![tactic(auto)]
