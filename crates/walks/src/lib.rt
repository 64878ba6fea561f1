// Rules 3 and 4, the tidy and the choice of an area as a walk meets them: definitions in specs/, proved equal to the meaning in proofs/.
#![tactic(auto)]
