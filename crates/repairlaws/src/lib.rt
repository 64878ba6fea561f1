// What follows from the meaning of repair: statements in specs/, proofs in proofs/.
#![tactic(auto)]
