// The six rules of a sound directory, as plain propositions, and what they give of its entries and rows: statements in specs/, proofs in
// proofs/. They know nothing of the code, which cites them.
#![tactic(auto)]
