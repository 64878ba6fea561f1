// The writer of absolute load files (document 02, Req 10), into lent room.
#![tactic(auto)]

mod blocks;
mod saving;

pub use saving::save;
