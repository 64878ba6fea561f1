// Absolute load files (document 02, Req 10): what a stream goes on with, and a lent memory of words as bytes. What they mean stands in specs/. Nothing
// here knows of directories.
#![tactic(auto)]

pub mod blocks;
pub mod memory;

ghost use Rattle.std.specs.Prelude.{◌≡◌, ◌+◌, true, false, MatchOption};
ghost use Rattle.loads.specs.Faults.{number_of};
ghost use Rattle.loads.specs.Reading.{goes_on, rest_of};

// What is wrong with a block.
#[derive(Clone, Copy, PartialEq, Eq, Debug)]
pub enum Fault {
    // a byte where a block should start that is neither 0 nor 1, or a 1 that no 0 follows
    Start,
    // a count below 6
    Count,
    // data outside the memory
    Outside,
    // a stream that ends before the block is whole
    Short,
    Checksum,
}

impl Fault {
    // The number of its refusal.
    pub fn number(self) -> u16
        ensures { result ≡ number_of self }
    {
        match self {
            Fault::Start => 27,
            Fault::Count => 28,
            Fault::Outside => 29,
            Fault::Short => 30,
            Fault::Checksum => 31,
        }
    }
}

// What a stream goes on with, at a place where a block should start.
#[derive(Clone, Copy)]
pub enum Part {
    // a zero byte between blocks
    Gap,
    // a data block: its load address, and how many data bytes it has
    Block(u16, u16),
    // the end block: the transfer address
    End(u16),
    // the number of the refusal: a number as in `Loaded`, since `read_from`, `report_from` and their laws (specs) say it of this enum
    Refused(u16),
}

impl Part {
    // How many bytes the stream goes on behind; none where the part ends it.
    pub fn length(self) -> Option<usize>
        ensures { MatchOption result (goes_on self ≡ false) (λ n. (goes_on self ≡ true) × (n ≡ rest_of self + 1)) }
    {
        match self {
            Part::Gap => Some(1),
            Part::Block(_, count) => Some(count as usize + 7),
            Part::End(_) | Part::Refused(_) => None,
        }
    }
}

// What the reader answers: 0 and the transfer address, or the number of the refusal and 0. No Result: `loadread::load` and `check` answer it as docs say,
// and `load_laws` speaks of its number.
#[derive(Clone, Copy)]
pub struct Loaded {
    pub number: u16,
    pub transfer: u16,
}

// What the writer answers: 0 and how many bytes it made, or the number of the refusal and 0. A full memory makes more than 65,535. No Result:
// `loadwrite::save` and `maps::map` answer it as docs say, and `save_laws` speaks of its count.
#[derive(Clone, Copy)]
pub struct Saved {
    pub number: u16,
    pub count: usize,
}

impl Saved {
    pub fn refused(number: u16) -> Saved
        ensures { (result.number ≡ number) × (result.count ≡ 0) }
    {
        Saved { number, count: 0 }
    }
}

// The number of too short an output.
pub const TOO_SHORT: u16 = 24;
