// The plain unit, the reference model of the catalog unit. It is definitions in specs/ and their laws in proofs/.

#![tactic(auto)]
