// Laws of the meaning: their statements stand in specs/, their proofs in proofs/. They know nothing of the code.
#![tactic(auto)]
