// The reader of absolute load files a piece at a time (document 02, Req 11): it takes its state, which a caller keeps, and the next piece of the input,
// of any length. State and answer are types of `loadsteps`.
#![tactic(auto)]

mod reading;
mod taking;

pub use reading::{answer_of, begin, feed, finish};
