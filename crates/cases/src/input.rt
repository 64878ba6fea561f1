// What is read: a record's bytes as words, names, numbers and requests, low byte and low word first.
ghost use Rattle.std.specs.Prelude.{◌≡◌, ◌+◌, ◌≤◌, ◌<◌, length, take, IfOk, OnOk, MatchResult, MatchOption, false, true};
ghost use Rattle.meaning.specs.Listing.{word_at};
ghost use Rattle.cases.specs.Runs.{Took, Further, RefusesAt};
ghost use Rattle.cases.specs.Records.{long_at, signed_at, name_at, is_request, op_of, request_at};

use crate::stops::{Fault, Stop, Why};
use meaning::{Name, Op, Request};
use std::io::Read;
use streams::fill;

// The most bytes that a record counts. A program that takes them has room for so many.
pub const BYTES: usize = 100000;

// A record's type, and what stands behind it in every record of the type.
pub type Head = [u8; 30];

// A case file that is read. `offset` counts the bytes read so far; no run gets to where it would begin anew.
#[derive(Drop)]
pub struct CaseFile<R> {
    reader: R,
    offset: u64,
}

impl<R: Read> CaseFile<R> {
    pub fn new(reader: R) -> CaseFile<R>
        ensures { (result.reader ≡ reader) × (result.offset ≡ 0) }
    {
        CaseFile { reader, offset: 0 }
    }

    // Fills the bytes as far as the file goes, and answers how many came.
    fn fill(&mut self, bytes: &mut [u8]) -> Result<usize, Stop>
        ensures in_bounds { IfOk result (λ n. n ≤ length bytes.new) }
        ensures took { IfOk result (λ n. Took R.remaining self.old self.new (take n bytes.new)) }
    {
        let (got, end) = fill(&mut self.reader, bytes);
        self.offset = self.offset.wrapping_add(got as u64);
        match end {
            Ok(()) => Ok(got),
            Err(error) => Err(Stop::Input(error)),
        }
    }

    // Fills the bytes; where fewer come, the file ends in the midst of a record.
    pub fn read(&mut self, bytes: &mut [u8]) -> Result<(), Stop>
        ensures { OnOk result (Took R.remaining self.old self.new bytes.new) }
    {
        if self.fill(bytes)? < bytes.len() {
            return Err(Stop::Fault(Fault::Cut(self.offset)));
        }
        Ok(())
    }

    // The same of a record's first bytes; where none comes, the file ends between two records.
    pub fn read_first(&mut self, bytes: &mut [u8]) -> Result<(), Stop>
        ensures { OnOk result (Took R.remaining self.old self.new bytes.new) }
    {
        let got = self.fill(bytes)?;
        if got == bytes.len() {
            return Ok(());
        }
        if got == 0 {
            return Err(Stop::Fault(Fault::NoEnd(self.offset)));
        }
        Err(Stop::Fault(Fault::Cut(self.offset)))
    }

    // Fills the bytes of a record that counts them: an odd last one is followed by one more, so that words follow.
    pub fn read_counted(&mut self, bytes: &mut [u8]) -> Result<(), Stop>
        ensures { OnOk result (Further R.remaining self.old self.new) }
    {
        self.read(bytes)?;
        let mut last = [0u8; 1];
        self.read(&mut last[..bytes.len() % 2])
    }

    // Fills the words.
    pub fn read_words(&mut self, words: &mut [u16]) -> Result<(), Stop>
        requires { length words.old ≤ 15872 }
        ensures { OnOk result (Further R.remaining self.old self.new) }
    {
        let mut room = [0u8; 31744];
        let bytes = &mut room[..2 * words.len()];
        self.read(bytes)?;
        for (i, word) in words.iter_mut().enumerate() {
            *word = word_at(bytes, 2 * i);
        }
        Ok(())
    }

    // What ends the run at a word or a number that can't be taken, which begins so many bytes before what is read next.
    pub fn refused(&self, why: Why, number: u32, back: usize) -> Stop
        ensures { RefusesAt self.now why number back result }
    {
        Stop::Fault(Fault::Refused(why, number, self.offset.wrapping_sub(back as u64)))
    }

    // A number as a count, where it is not above the most that there may be.
    pub fn at_most(&self, number: u32, most: usize, why: Why, back: usize) -> Result<usize, Stop>
        ensures { MatchResult result (λ n. (n ≡ number) × (n ≤ most)) (λ _. most < number) }
    {
        let n = number as usize;
        if n > most {
            return Err(self.refused(why, number, back));
        }
        Ok(n)
    }
}

// The word whose low byte stands there.
#[tactic(auto, unfolding(meaning::specs::Listing::word_at))]
pub fn word_at(bytes: &[u8], at: usize) -> u16
    requires { at + 2 ≤ length bytes.now }
    ensures { result ≡ word_at bytes.now at }
{
    u16::from_le_bytes([bytes[at], bytes[at + 1]])
}

// A number of 32 bits.
#[tactic(auto, unfolding(crate::specs::Records::long_at, meaning::specs::Listing::word_at))]
pub fn long_at(bytes: &[u8], at: usize) -> u32
    requires { at + 4 ≤ length bytes.now }
    ensures { result ≡ long_at bytes.now at }
{
    u32::from_le_bytes([bytes[at], bytes[at + 1], bytes[at + 2], bytes[at + 3]])
}

// The same in two's complement.
fn signed_at(bytes: &[u8], at: usize) -> i32
    requires { at + 4 ≤ length bytes.now }
    ensures { result ≡ signed_at bytes.now at }
{
    long_at(bytes, at).cast_signed()
}

fn name_at(bytes: &[u8], at: usize) -> Name
    requires { at + 6 ≤ length bytes.now }
    ensures { result ≡ name_at bytes.now at }
{
    Name {
        first: word_at(bytes, at),
        second: word_at(bytes, at + 2),
        extension: word_at(bytes, at + 4),
    }
}

// Whether a number asks for a request.
#[tactic(auto, unfolding(crate::specs::Records::is_request))]
pub fn is_request(number: u16) -> bool
    ensures { result ≡ is_request number }
{
    (1..=8).contains(&number)
}

// Which one. Whoever takes a number that asks for none stops before, so that it is no matter which that is.
#[tactic(auto, unfolding(crate::specs::Records::op_of))]
fn op_of(number: u16) -> Op
    ensures { result ≡ op_of number }
{
    match number {
        1 => Op::Lookup,
        2 => Op::Enter,
        3 => Op::Close,
        4 => Op::Abandon,
        5 => Op::Delete,
        6 => Op::Rename,
        7 => Op::Protect,
        _ => Op::Unprotect,
    }
}

// The request of fourteen words.
pub fn request_at(bytes: &[u8], at: usize) -> Request
    requires { at + 28 ≤ length bytes.now }
    ensures { result ≡ request_at bytes.now at }
{
    Request {
        op: op_of(word_at(bytes, at)),
        name: name_at(bytes, at + 2),
        new_name: name_at(bytes, at + 8),
        job: word_at(bytes, at + 14),
        channel: word_at(bytes, at + 16),
        size: signed_at(bytes, at + 18),
        final_length: signed_at(bytes, at + 22),
        date: word_at(bytes, at + 26),
    }
}

// The same, if its first word asks for one.
pub fn asked_at(bytes: &[u8], at: usize) -> Option<Request>
    requires { at + 28 ≤ length bytes.now }
    ensures { MatchOption result (is_request (word_at bytes.now at) ≡ false)
        (λ r. (is_request (word_at bytes.now at) ≡ true) × (r ≡ request_at bytes.now at)) }
{
    if !is_request(word_at(bytes, at)) {
        return None;
    }
    Some(request_at(bytes, at))
}
