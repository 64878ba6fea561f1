// The whole directory: the soundness check, which is the tests of its chain and of clashes in order; and the test for clashes.
#![tactic(auto)]

pub mod clashes;
pub mod sound;
