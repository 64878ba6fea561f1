// What squeeze reads before it writes: whether an entry is tentative, how many moves there are, and whether a segment gets more entries than it
// can hold. So a refusal leaves all as it was. Throughout, `width` is how many words a slot has, 7 + E, `stands` the block where an entry
// stands, and `free` the next free block of those that are packed.
#![tactic(auto)]

pub mod open;
pub mod place;
pub mod survey;
pub mod tally;
