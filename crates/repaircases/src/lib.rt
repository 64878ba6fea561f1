// Types 5 and 6 of a case file (docs/CASES.md): a proposal put to the test, and the tool on the present directory.
#![tactic(auto)]

ghost use Rattle.std.specs.Prelude.{◌≡◌, ◌≤◌, length, OnOk};
ghost use Rattle.cases.specs.Runs.{Further};

use cases::input::{CaseFile, Head, word_at};
use cases::{Stop, Why};
use directory::sound::fault_of;
use repair::{accept, repair};
use std::io::Read;

// The words of 31 segments, which is the most that a case may hand in.
const WORDS: usize = 15872;

// Type 5: a count of words, which are the proposal, read and tested.
pub fn take_proposal<R: Read>(
    rt: &impl Print,
    file: &mut CaseFile<R>,
    d: &[u16],
    blocks: usize,
    head: &Head,
) -> Result<(), Stop>
    ensures { OnOk result (Further R.remaining file.old file.new) }
{
    let n = file.at_most(word_at(head, 2) as u32, WORDS, Why::Words, 2)?;
    let mut room = [0u16; WORDS];
    let proposal = &mut room[..n];
    file.read_words(proposal)?;
    println!(rt; "accept {}", accept(d, blocks, proposal))?;
    Ok(())
}

// Type 6: the tool on a copy of the words at hand, and the test and the fault of what it gave.
pub fn repair_words(rt: &impl Print, d: &mut [u16], blocks: usize) -> Result<(), Stop>
    requires { length d.old ≤ 15872 }
    ensures { length d.new ≡ length d.old }
{
    let mut room = [0u16; WORDS];
    let old = &mut room[..d.len()];
    old.copy_from_slice(d);
    let number = repair(d, blocks);
    println!(rt; "repair {number}")?;
    if number == 0 {
        println!(rt; "accept {}", accept(old, blocks, d))?;
        println!(rt; "fault {}", fault_of(d, blocks))?;
    }
    Ok(())
}
