// The vocabulary of document 01 as plain types and named numbers. What they mean stands in specs/, under the same names.
#![tactic(auto)]

ghost use Rattle.std.specs.Prelude.{◌≡◌};
ghost use Rattle.meaning.specs.Keys.{spared};
ghost use Rattle.meaning.specs.Answers.{refusal, granted};
ghost use Rattle.meaning.specs.Told.{number_of, told};

// The statuses of a slot.
pub const TENTATIVE: u16 = 256;

pub const EMPTY: u16 = 512;

pub const PERMANENT: u16 = 1024;

pub const END: u16 = 2048;

// A permanent entry that is protected.
pub const PROTECTED: u16 = 33792;

// The highest channel of a job.
pub const CHANNEL_LIMIT: u16 = 255;

// What a status word says of its slot.
#[derive(Clone, Copy, PartialEq, Eq)]
pub enum Kind {
    Tentative,
    Empty,
    Permanent,
    End,
    Unknown,
}

// Which request is made.
#[derive(Clone, Copy, PartialEq, Eq)]
pub enum Op {
    Lookup,
    Enter,
    Close,
    Abandon,
    Delete,
    Rename,
    Protect,
    Unprotect,
}

// A name as three words: six characters in two words, the extension in the third.
#[derive(Clone, Copy, PartialEq, Eq)]
pub struct Name {
    pub first: u16,
    pub second: u16,
    pub extension: u16,
}

// FILE.BAD, the one name that may stand more than once.
pub const FILE_BAD: Name = Name {
    first: 9972,
    second: 8000,
    extension: 3244,
};

// Whether a name is spared.
#[tactic(auto, unfolding(crate::specs::Keys::spared, crate::specs::Words::same_name))]
pub fn is_spared(name: Name) -> bool
    ensures { result ≡ spared name }
{
    name == FILE_BAD
}

// What an entry is known by: a permanent file by its name, a tentative entry by its channel word.
#[derive(Clone, Copy, PartialEq, Eq)]
pub enum Key {
    File(Name),
    Open(u16),
}

// One request of a batch. A request passes over the fields that it has no use for.
#[derive(Clone, Copy, PartialEq, Eq)]
pub struct Request {
    pub op: Op,
    pub name: Name,
    pub new_name: Name,
    pub job: u16,
    pub channel: u16,
    pub size: i32,
    pub final_length: i32,
    pub date: u16,
}

// Where an entry is: its segment and slot, both counted from 1.
#[derive(Clone, Copy, PartialEq, Eq)]
pub struct Position {
    pub segment: u16,
    pub slot: u16,
}

// The answer to a request: 0 and the entry concerned, where it is after the request, or the number of the refusal and zeros. A number beside
// values and no Result: docs/MANUAL.md answers by these six fields, and the theorems of the crate laws (Refusals, Order, Points) speak of
// them. Inside the engine it is a Result of `Granted` and `Refusal`.
#[derive(Clone, Copy, PartialEq, Eq)]
pub struct Answer {
    pub number: u16,
    pub first: u16,
    pub length: u16,
    pub date: u16,
    pub segment: u16,
    pub slot: u16,
}

// Why a request on a sound directory, or a fresh start, is refused.
#[derive(Clone, Copy, PartialEq, Eq)]
pub enum Refusal {
    WrongSizes,
    WrongExtra,
    IllegalName,
    WrongChannel,
    WrongSizeOrDate,
    ChannelInUse,
    NoLongArea,
    NoRoom,
    NoFile,
    NameTaken,
    NotOpen,
    WrongLength,
    SparedName,
    ProtectedFile,
}

// The number by which a user knows a refusal.
impl From<Refusal> for u16 {
    ghost from_gives = { λ r n. n ≡ number_of r };

    fn from(refusal: Refusal) -> u16 {
        match refusal {
            Refusal::WrongSizes => 1,
            Refusal::WrongExtra => 2,
            Refusal::IllegalName => 7,
            Refusal::WrongChannel => 8,
            Refusal::WrongSizeOrDate => 9,
            Refusal::ChannelInUse => 10,
            Refusal::NoLongArea => 11,
            Refusal::NoRoom => 12,
            Refusal::NoFile => 13,
            Refusal::NameTaken => 14,
            Refusal::NotOpen => 15,
            Refusal::WrongLength => 16,
            Refusal::SparedName => 19,
            Refusal::ProtectedFile => 20,
        }
    }
}

// The entry that a request which is carried out concerns, as it is afterwards.
#[derive(Clone, Copy, PartialEq, Eq)]
pub struct Granted {
    pub first: u16,
    pub length: u16,
    pub date: u16,
    pub position: Position,
}

// The answer of a refusal, and that of a success. No other place writes the fields of an answer.
pub fn refused(number: u16) -> Answer
    ensures { result ≡ refusal number }
{
    Answer {
        number,
        first: 0,
        length: 0,
        date: 0,
        segment: 0,
        slot: 0,
    }
}

pub fn succeeded(first: u16, length: u16, date: u16, position: Position) -> Answer
    ensures { result ≡ granted first length date position }
{
    Answer {
        number: 0,
        first,
        length,
        date,
        segment: position.segment,
        slot: position.slot,
    }
}

// What a request came to, as its answer.
impl From<Result<Granted, Refusal>> for Answer {
    ghost from_gives = { λ r a. a ≡ told r };

    fn from(outcome: Result<Granted, Refusal>) -> Answer {
        match outcome {
            Ok(entry) => succeeded(entry.first, entry.length, entry.date, entry.position),
            Err(refusal) => refused(u16::from(refusal)),
        }
    }
}
