// What the areas of a directory come to once it is tidied, met on its words as they are, so that an enter is refused before anything
// is written: neighbouring empty entries count as one area, with their lengths added up, and as none where these come to 0 and no
// tentative entry needs it. As in the crate `segment`, `width` is how many words a slot has, 7 + E.
#![tactic(auto)]

pub mod areas;
pub mod runs;
