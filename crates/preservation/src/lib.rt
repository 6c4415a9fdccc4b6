// What each message writes is again the image of the plain unit after the message, which is good. Definitions in specs/, proofs in proofs/.

#![tactic(auto)]
