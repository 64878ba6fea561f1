// The changes that requests make in place, on words that are known to allow them. Each changes exactly the words that it names.
#![tactic(auto)]

pub mod change;
pub mod fresh;
