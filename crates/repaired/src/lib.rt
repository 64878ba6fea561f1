// Repair of a damaged directory (document 02, Req 09): meaning in specs/, its examples computed in proofs/.
#![tactic(auto)]
