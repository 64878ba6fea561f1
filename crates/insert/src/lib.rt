// The new entry put into its area, on a directory known to be sound: in one segment, or after a split where slots lack.
#![tactic(auto)]

pub mod place;
