// A walker over the entries: a struct that borrows the directory and knows where in it it stands. Each function over it is kept thin: it takes
// the struct apart and leaves the work to a function on the slice. `row` stands above them with plain parameters, for every other caller.
#![tactic(auto)]

ghost use Rattle.std.specs.Prelude.{◌≡◌};
ghost use Rattle.meaning.specs.Sound.{fault};
ghost use Rattle.reader.specs.Read.{Answers, read_at, place_after, opened, moved_by, row_at};

use cursor::{Cursor, Seen};
use directory::sound;

// The directory, a place in it (a segment and a slot), and the number of the directory's fault, 0 for none. A number, since `opened` in
// specs/Read.antt says so of a reader before all entries (docs/CONTRACTS.md).
#[derive(Clone, Copy)]
pub struct Reader<'a> {
    pub words: &'a [u16],
    pub cursor: Cursor,
    pub number: u16,
}

// What is read: an entry, that there is no more, or the number of the directory's fault. A type of its own, since the manual names its three
// cases (docs/MANUAL.md, "The reader").
#[derive(Clone, Copy)]
pub enum Read {
    Entry(Seen),
    End,
    Refused(u16),
}

// What stands at a place. A refused reader has nothing to read, whatever its place.
fn read_at(words: &[u16], place: Cursor, number: u16) -> Read
    ensures { Answers result number (read_at words.now place number) }
{
    if number != 0 {
        return Read::Refused(number);
    }
    match cursor::step_from(words, place) {
        Some((seen, _)) => Read::Entry(seen),
        None => Read::End,
    }
}

// The place so many entries further on. At the end there is no further, and a refused reader stays: the chain of an unsound
// directory may loop.
fn skip(words: &[u16], place: Cursor, number: u16, count: usize) -> Cursor
    ensures { result ≡ place_after words.now place number count }
{
    if number != 0 {
        return place;
    }
    let mut here = place;
    for _ in 0..count {
        let Some((_, past)) = cursor::step_from(words, here) else {
            return here;
        };
        here = past;
    }
    here
}

// A reader before all entries. On an unsound directory it is made refused, with the fault's number.
pub fn open<'a>(words: &'a [u16], v: usize) -> Reader<'a>
    ensures { result ≡ opened words.entry v }
{
    Reader {
        words,
        cursor: cursor::start(words),
        number: sound::fault_of(words, v),
    }
}

// What the reader reads next. It stays where it is: `moved` takes it on.
pub fn next<'a>(reader: Reader<'a>) -> Read
    ensures { Answers result reader.entry.number
        (read_at reader.entry.words.now reader.entry.cursor reader.entry.number) }
{
    read_at(reader.words, reader.cursor, reader.number)
}

// The reader so many entries further on.
pub fn moved<'a>(reader: Reader<'a>, count: usize) -> Reader<'a>
    ensures { result ≡ moved_by reader.entry count }
{
    Reader {
        words: reader.words,
        cursor: skip(reader.words, reader.cursor, reader.number, count),
        number: reader.number,
    }
}

// The entry that so many others precede in chain order, or the end; of an unsound directory the fault's number.
pub fn row(words: &[u16], v: usize, count: usize) -> Read
    ensures { Answers result (fault v words.now) (row_at v words.now count) }
{
    next(moved(open(words, v), count))
}
