// Which area an enter takes, on a tidied directory: the size that is asked for, the slots that an area costs and those that a segment
// has free, and the first eligible area that is long enough.
#![tactic(auto)]

pub mod choose;
pub mod room;
pub mod size;
