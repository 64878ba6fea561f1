// Types 9 to 11 of a case file (docs/CASES.md): a load file read into a memory, at once or in pieces, and written from one. The present directory has no
// part in it. All begin with a memory. Each big room stands in a function of its own, as facts beside it are dear to check.
#![tactic(auto)]

mod feeding;

ghost use Rattle.std.specs.Prelude.{OnOk};
ghost use Rattle.cases.specs.Runs.{Further};

use crate::feeding::take_pieces;
use cases::input::{BYTES, CaseFile, Head, long_at, word_at};
use cases::output::{check_of, check_of_bytes};
use cases::{Stop, Why};
use loadread::load;
use loadwrite::save;
use std::io::Read;

// The most words of a memory, and bytes of an output.
const WORDS: usize = 40000;

const OUTPUT: usize = 70000;

// What every byte of an output is before the writer gets it.
const OLD: u8 = 170;

// A memory by its rule: the first word, and from each to the next a step, modulo 65,536.
fn fill_memory(words: &mut [u16], first: u16, step: u16) {
    let mut next = first;
    for word in words {
        *word = next;
        next = next.wrapping_add(step);
    }
}

fn show_load(rt: &impl Print, words: &mut [u16], stream: &[u8]) -> Result<(), Stop> {
    let answer = load(stream, words);
    println!(rt;
        "load {} {} {}",
        answer.number,
        answer.transfer,
        check_of(words)
    )?;
    Ok(())
}

// The bytes of a stream follow the memory; all are read, and then a reader gets them.
fn take_stream<R: Read>(
    rt: &impl Print,
    file: &mut CaseFile<R>,
    words: &mut [u16],
    head: &Head,
) -> Result<(), Stop>
    ensures { OnOk result (Further R.remaining file.old file.new) }
{
    let n = file.at_most(long_at(head, 8), BYTES, Why::Bytes, 4)?;
    let mut room = [0u8; BYTES];
    let stream = &mut room[..n];
    file.read_counted(stream)?;
    if word_at(head, 0) == 9 {
        return show_load(rt, words, stream);
    }
    take_pieces(rt, file, words, stream)
}

// First byte, count, transfer address and room follow the memory.
fn take_range<R: Read>(
    rt: &impl Print,
    file: &CaseFile<R>,
    words: &[u16],
    head: &Head,
) -> Result<(), Stop> {
    let n = file.at_most(long_at(head, 18), OUTPUT, Why::Output, 4)?;
    let mut room = [OLD; OUTPUT];
    let out = &mut room[..n];
    let start = long_at(head, 8) as usize;
    let count = long_at(head, 12) as usize;
    let answer = save(words, start, count, word_at(head, 16), out);
    println!(rt;
        "save {} {} {}",
        answer.number,
        answer.count,
        check_of_bytes(out)
    )?;
    Ok(())
}

// All three types begin with a memory: its count of words stands 10 bytes before the head's end, and 20 in a range's.
pub fn take_memory<R: Read>(
    rt: &impl Print,
    file: &mut CaseFile<R>,
    head: &Head,
) -> Result<(), Stop>
    ensures { OnOk result (Further R.remaining file.old file.new) }
{
    let is_range = word_at(head, 0) == 11;
    let back = if is_range { 20 } else { 10 };
    let n = file.at_most(word_at(head, 2) as u32, WORDS, Why::Memory, back)?;
    let mut room = [0u16; WORDS];
    let words = &mut room[..n];
    fill_memory(words, word_at(head, 4), word_at(head, 6));
    if is_range {
        return take_range(rt, file, words, head);
    }
    take_stream(rt, file, words, head)
}
