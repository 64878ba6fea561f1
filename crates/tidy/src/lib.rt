// The first step of an enter, on a directory known to be sound: the tidy of every open segment.
// As in the crate `segment`, `width` is how many words a slot has, 7 + E.
#![tactic(auto)]

pub mod tidy;
pub mod untidy;
