// Types 1 to 3: a directory, a fresh start, a request; and the lines of a directory's fault and of an answer.
ghost use Rattle.std.specs.Prelude.{◌≤◌, IfOk};

use crate::{Size, WORDS};
use cases::input::{CaseFile, Head, asked_at, long_at, word_at};
use cases::output::{Line, check_of, numbers_of};
use cases::{Stop, Why};
use door::{fault, fresh, serve};
use meaning::Answer;
use std::io::Read;

pub(crate) fn write_fault(rt: &impl Print, d: &[u16], blocks: usize) -> Result<(), Stop> {
    println!(rt; "fault {}", fault(d, blocks))?;
    Ok(())
}

// Type 1: V in two words, and a count of words, which become the present directory.
pub(crate) fn take_directory<R: Read>(
    rt: &impl Print,
    file: &mut CaseFile<R>,
    room: &mut [u16; WORDS],
    head: &Head,
) -> Result<Size, Stop>
    ensures { IfOk result (λ size. size.words ≤ 15872) }
{
    let words = file.at_most(word_at(head, 6) as u32, WORDS, Why::Words, 2)?;
    let blocks = long_at(head, 2) as usize;
    let d = &mut room[..words];
    file.read_words(d)?;
    write_fault(rt, d, blocks)?;
    Ok(Size { words, blocks })
}

// The answer and the check over the directory as it now stands.
fn write_answer(rt: &impl Print, d: &[u16], answer: Answer) -> Result<(), Stop> {
    println!(rt; "{}", Line("", &numbers_of(answer, check_of(d))))?;
    Ok(())
}

// Type 2: a fresh start over the present words, with so many extra words to an entry.
pub(crate) fn start_fresh(
    rt: &impl Print,
    d: &mut [u16],
    blocks: usize,
    head: &Head,
) -> Result<(), Stop> {
    let answer = fresh(d, blocks, word_at(head, 2) as usize);
    write_answer(rt, d, answer)
}

// Type 3: a request in fourteen words.
pub(crate) fn take_request<R: Read>(
    rt: &impl Print,
    file: &CaseFile<R>,
    d: &mut [u16],
    blocks: usize,
    head: &Head,
) -> Result<(), Stop> {
    let Some(request) = asked_at(head, 2) else {
        return Err(file.refused(Why::Request, word_at(head, 2) as u32, 28));
    };
    let answer = serve(d, blocks, request);
    write_answer(rt, d, answer)
}
