// Type 10 of a case file, behind its memory and its stream: the lengths of the pieces, and whether the input has ended. Each piece is fed as soon as its
// length is read, so that no count of pieces needs room.
ghost use Rattle.std.specs.Prelude.{◌≤◌, length, IfOk, OnOk};
ghost use Rattle.cases.specs.Runs.{Further};

use cases::input::{CaseFile, long_at, word_at};
use cases::output::{Line, check_of};
use cases::{Stop, Why};
use loadsteps::{Answer, Reader};
use pieces::{answer_of, begin, feed, finish};
use std::io::Read;

// The next length, which is no more than the stream has left.
fn read_length<R: Read>(file: &mut CaseFile<R>, left: usize) -> Result<usize, Stop>
    ensures in_bounds { IfOk result (λ n. n ≤ left) }
    ensures further { OnOk result (Further R.remaining file.old file.new) }
{
    let mut number = [0u8; 4];
    file.read(&mut number)?;
    file.at_most(long_at(&number, 0), left, Why::Piece, 4)
}

// So many pieces, from the stream's first byte on.
fn feed_pieces<R: Read>(
    file: &mut CaseFile<R>,
    words: &mut [u16],
    stream: &[u8],
    count: u16,
) -> Result<Reader, Stop>
    ensures { OnOk result (Further R.remaining file.old file.new) }
{
    let mut reader = begin();
    let mut rest = stream;
    for _ in 0..count {
        let n = read_length(file, rest.len())?;
        reader = feed(reader, &rest[..n], words);
        rest = &rest[n..];
    }
    Ok(reader)
}

// The numbers of an answer, in the order of its line, and the check behind them. What an answer doesn't have is 0.
fn numbers_of(answer: Answer, check: u64) -> [u64; 6] {
    match answer {
        Answer::Provisional => [0, 0, 0, 0, 0, check],
        Answer::Accepted(transfer) => [1, 0, transfer as u64, 0, 0, check],
        Answer::Refused(number, stored, offset) => [2, number as u64, 0, stored, offset, check],
    }
}

// How many pieces there are, and their lengths; bytes behind the last piece are not fed. The last word says whether the input has ended.
pub(crate) fn take_pieces<R: Read>(
    rt: &impl Print,
    file: &mut CaseFile<R>,
    words: &mut [u16],
    stream: &[u8],
) -> Result<(), Stop>
    ensures { OnOk result (Further R.remaining file.old file.new) }
{
    let mut word = [0u8; 2];
    file.read(&mut word)?;
    let mut reader = feed_pieces(file, words, stream, word_at(&word, 0))?;
    file.read(&mut word)?;
    if word_at(&word, 0) != 0 {
        reader = finish(reader);
    }
    let numbers = numbers_of(answer_of(reader), check_of(words));
    println!(rt; "{}", Line("pieces", &numbers))?;
    Ok(())
}
