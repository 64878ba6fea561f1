// What ends a run before its end record.
ghost use Rattle.std.specs.Prelude.{◌≡◌};
ghost use Rattle.cases.specs.declared.stops.Stop.TheVariants.{Output};

use std::{fmt, io};

// What can't be taken of a word or a number.
#[derive(Clone, Copy)]
pub enum Why {
    Type,
    Words,
    Request,
    Room,
    Requests,
    Place,
    Bytes,
    Memory,
    Output,
    Piece,
    Moves,
}

impl fmt::Display for Why {
    fn fmt<W: fmt::Write>(&self, f: &mut fmt::Formatter<W>) -> fmt::Result {
        f.write_str(match self {
            Why::Type => "an unknown record type",
            Why::Words => "more words than a directory can have",
            Why::Request => "an unknown request",
            Why::Room => "room for more than eight answers",
            Why::Requests => "more than eight requests",
            Why::Place => "a place outside the directory",
            Why::Bytes => "more bytes than 100,000",
            Why::Memory => "a memory of more words than 40,000",
            Why::Output => "room for more bytes than 70,000",
            Why::Piece => "a piece of more bytes than the stream has left",
            Why::Moves => "room for more moves than 2,300",
        })
    }
}

// What is wrong with the case file, and at which of its bytes.
#[derive(Clone, Copy)]
pub enum Fault {
    // It ends between two records.
    NoEnd(u64),
    // It ends in the midst of a record.
    Cut(u64),
    // A word or a number that can't be taken begins there.
    Refused(Why, u32, u64),
}

// How the line begins that tells it: up to the number that can't be taken, or to the place.
impl fmt::Display for Fault {
    fn fmt<W: fmt::Write>(&self, f: &mut fmt::Formatter<W>) -> fmt::Result {
        match *self {
            Fault::NoEnd(_) => f.write_str("the input ends without an end record"),
            Fault::Cut(_) => f.write_str("the input ends in the midst of a record"),
            Fault::Refused(why, _, _) => write!(f, "{why}, "),
        }
    }
}

// A fault of the case file, or a read or a write that failed.
#[derive(Drop)]
pub enum Stop {
    Fault(Fault),
    Input(io::Error),
    Output(io::Error),
}

// The error that a printed line answers, for `?`.
impl From<io::Error> for Stop {
    ghost from_gives = { λ error stop. stop ≡ Output error };

    fn from(error: io::Error) -> Stop {
        Stop::Output(error)
    }
}
