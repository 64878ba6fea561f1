// What squeeze writes, on a directory that allows it: the moves into the lent list, and each segment anew. Throughout,
// `width` is how many words a slot has, 7 + E, `stands` the block where an entry stands, `free` the next free block of those that are packed, `out` a segment's new words and `list` the moves.
#![tactic(auto)]

pub mod anew;
pub mod entries;
pub mod moves;

// Where a walk over a segment's entries comes to: the place of the next words in the segment's new words, that of the next move in the list, and
// the next free block. Places beside slices, and no `Vec`, since there is no heap here.
#[derive(Clone, Copy)]
pub struct Place {
    pub at: usize,
    pub listed: usize,
    pub free: usize,
}
