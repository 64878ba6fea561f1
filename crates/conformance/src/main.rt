// Runs a case file, read from standard input, through the door, and writes a line for each of its records. The file is made of words, low
// byte first; a record is its type and the words that the type asks for. Each record is read when its turn comes, so a file may be of any
// length. What can't be understood stops the run, with one line on standard error that says what it was and at which byte.
#![tactic(auto)]

mod changes;
mod records;

ghost use Rattle.std.specs.Prelude.{◌≤◌};

use batchcases::take_batch;
use cases::input::{CaseFile, Head, word_at};
use cases::{Fault, Stop, Why};
use labelcases::take_block;
use loadcases::take_memory;
use records::{start_fresh, take_directory, take_request, write_fault};
use squeezecases::take_squeeze;
use std::io::Read;
use streams::fail;

// The words of 31 segments, which is the most that a case may hand in.
const WORDS: usize = 15872;

// The present directory has the first `words` of the words kept, on a volume of so many blocks.
#[derive(Clone, Copy)]
struct Size {
    words: usize,
    blocks: usize,
}

// How many bytes stand behind a type in every record of it, before the words that are counted there.
fn head_bytes(number: u16) -> usize
    ensures { result ≤ 28 }
{
    match number {
        1 => 6,
        2 | 4 => 2,
        3 => 28,
        7 | 8 | 100 => 4,
        9 | 10 => 10,
        11 => 20,
        101 => 2,
        _ => 0,
    }
}

// A record's type, and what stands behind it in every record of the type.
fn read_head<R: Read>(file: &mut CaseFile<R>) -> Result<Head, Stop> {
    let mut head = [0u8; 30];
    file.read_first(&mut head[..2])?;
    let n = head_bytes(word_at(&head, 0));
    file.read(&mut head[2..2 + n])?;
    Ok(head)
}

// What a type asks for that leaves the directory its size.
fn take_kind<R: Read>(
    rt: &impl Print,
    file: &mut CaseFile<R>,
    d: &mut [u16],
    blocks: usize,
    head: &Head,
) -> Result<(), Stop> {
    match word_at(head, 0) {
        2 => start_fresh(rt, d, blocks, head),
        3 => take_request(rt, file, d, blocks, head),
        4 => take_squeeze(rt, file, d, blocks, head),
        7 | 8 => take_block(rt, file, head),
        9 | 10 | 11 => take_memory(rt, file, head),
        100 => take_batch(rt, file, d, blocks, head),
        101 => {
            changes::change_words(file, d, word_at(head, 2))?;
            write_fault(rt, d, blocks)
        }
        number => Err(file.refused(Why::Type, number as u32, 2)),
    }
}

// Record after record, up to the end record. A proved loop has to end, and nothing says that the input does: so the turns are counted, up to a
// number that no run comes to.
fn run<R: Read>(
    rt: &impl Print,
    file: &mut CaseFile<R>,
    room: &mut [u16; WORDS],
) -> Result<(), Stop> {
    let mut size = Size {
        words: 0,
        blocks: 0,
    };
    for _ in 0..u64::MAX {
        let head = read_head(file)?;
        match word_at(&head, 0) {
            0 => break,
            1 => size = take_directory(rt, file, room, &head)?,
            _ => take_kind(rt, file, &mut room[..size.words], size.blocks, &head)?,
        }
    }
    Ok(())
}

// What is wrong, the number that can't be taken, and where: each part by a write of its own.
fn complain(rt: &impl Eprint, fault: Fault) {
    let _ = eprint!(rt; "conformance: {fault}");
    let at = match fault {
        Fault::NoEnd(at) | Fault::Cut(at) => at,
        Fault::Refused(_, number, at) => {
            let _ = rt.eprint(number);
            at
        }
    };
    let _ = eprintln!(rt; ", at byte {at}");
}

// One line on standard error. Whether it got out there is no matter: the run ends anyway.
fn report(rt: &(impl Eprint + Alloc), stop: Stop) {
    match stop {
        Stop::Fault(fault) => complain(rt, fault),
        Stop::Input(error) => fail(rt, b"conformance: standard input", error),
        Stop::Output(error) => fail(rt, b"conformance: standard output", error),
    }
}

fn main(rt: HostRuntime) {
    let mut file = CaseFile::new(rt.reader());
    if let Err(stop) = run(&rt, &mut file, &mut [0u16; WORDS]) {
        report(&rt, stop);
    }
}
