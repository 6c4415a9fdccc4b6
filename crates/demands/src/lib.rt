// The letter's three demands, over the contracts of the one call and of Format. Definitions in specs/, proofs in proofs/.

#![tactic(auto)]
