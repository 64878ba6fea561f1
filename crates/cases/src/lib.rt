// What the records of a case file share (docs/CASES.md): the file with the count of its bytes, those bytes as words, numbers and requests, the
// lines that a run writes, and what ends it. What a contract can't say, which lines come, is tried by the program `conformance`.
#![tactic(auto)]

pub mod input;
pub mod output;
mod stops;

pub use stops::{Fault, Stop, Why};
