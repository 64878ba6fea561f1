// One segment of 512 words: the kinds of its slots, a scan that tests and sums them, the count of its entries, and the finder of an
// entry; and words copied. Nothing here knows of the chain: the crates above hand over each segment as a part of the directory.
// Throughout, `width` is how many words a slot has, 7 + E.
#![tactic(auto)]

pub mod copying;
pub mod count;
pub mod entries;
pub mod entry;
pub mod finder;
pub mod kinds;
pub mod naming;
pub mod scan;
