// What the programs ask of the system, over std: a buffer filled from a reader, the arguments, a file by its name, and a line on standard error
// that says what failed.
#![tactic(auto)]

pub mod files;

ghost use Rattle.std.specs.Prelude.{◌≡◌, ◌≤◌, length, take, IfOk, IfErr, OnOk, IsUtf8};
ghost use Rattle.std.specs.IoError.{error_kind};
ghost use Rattle.std.specs.declared.io.ErrorKind.TheVariants.{InvalidInput};
ghost use Rattle.std.specs.Io.KnownBytes.{Consumes};

use std::env::{Env, FillError};
use std::fs::File;
use std::io::{ErrorKind, Read};
use std::rt::Files;
use std::{fmt, io, str};

// Room for a path of any length that the system takes.
pub const PATH_MAX: usize = 4096;

// The numbers of the system's errors for an argument that is missing, and for one that its buffer can't hold.
const EINVAL: i32 = 22;

const ENAMETOOLONG: i32 = 36;

// Reads until buf is full, the input ends or a read fails. Returns how many bytes it put at the start of buf, and the error of a read that failed.
pub fn fill<R: Read>(reader: &mut R, buf: &mut [u8]) -> (usize, io::Result<()>)
    ensures in_bounds { result.0 ≤ length buf.new }
    ensures bytes { Consumes (R.remaining reader.old) (R.remaining reader.new) (take result.0 buf.new) }
{
    // A `while`, as in Rust: `done` goes on by what a read gave, and std's reads to the end need a Vec or lose the count.
    let mut done = 0;
    while done < buf.len() {
        match reader.read(&mut buf[done..]) {
            Ok(0) => break,
            Ok(n) => done += n,
            Err(error) => return (done, Err(error)),
        }
    }
    (done, Ok(()))
}

// The same, where a read that fails is no more than the input's end.
pub fn read_full<R: Read>(reader: &mut R, buf: &mut [u8]) -> usize
    ensures in_bounds { result ≤ length buf.new }
    ensures bytes { Consumes (R.remaining reader.old) (R.remaining reader.new) (take result buf.new) }
{
    fill(reader, buf).0
}

fn is_missing(rt: &impl Env, i: usize) -> bool {
    let mut room = [0u8; 1];
    matches!(rt.arg(i, &mut room), Err(FillError::NotPresent))
}

// How many arguments there are. The program's own name is the first. No `ensures`: no clause of std says what the system's arguments are.
pub fn arg_count(rt: &impl Env) -> usize {
    (0..usize::MAX)
        .find(|i| is_missing(rt, *i))
        .unwrap_or(usize::MAX)
}

// Puts argument i at the start of buf and returns its length.
pub fn arg(rt: &impl Env, i: usize, buf: &mut [u8]) -> io::Result<usize>
    ensures { IfOk result (λ n. n ≤ length buf.new) }
{
    rt.arg(i, buf).map_err(|error| io::Error::from_raw_os_error(match error {
        FillError::NotPresent => EINVAL,
        FillError::TooLong => ENAMETOOLONG,
    }))
}

// Opens the file for reading. A name that is not UTF-8 is refused as such, since std opens no such file. What else the system refuses no clause
// can say.
pub fn open_read<R: Files>(rt: &R, path: &[u8]) -> io::Result<R::File>
    ensures opened { OnOk result (IsUtf8 path.now) }
    ensures refused { ¬ (IsUtf8 path.now) → IfErr result (λ e. error_kind e ≡ InvalidInput) }
{
    let Ok(name) = str::from_utf8(path) else {
        return Err(io::Error::new(ErrorKind::InvalidInput, "the name is not UTF-8"));
    };
    File::open(rt, name)
}

// Bytes as text, with a sign in place of what is not UTF-8.
#[derive(Drop)]
struct Shown<'a>(&'a [u8]);

impl fmt::Display for Shown<'_> {
    fn fmt<W: fmt::Write>(&self, f: &mut fmt::Formatter<W>) -> fmt::Result {
        for chunk in self.0.utf8_chunks() {
            f.write_str(chunk.valid())?;
            if !chunk.invalid().is_empty() {
                f.write_str("\u{FFFD}")?;
            }
        }
        Ok(())
    }
}

// Writes a line to standard error: what failed, as the caller names it, a colon and why. Where standard error takes nothing, nobody can be told.
// No `ensures`, here and at `fail`: they answer nothing and change no value that a clause can name.
pub fn complain<D: fmt::Display + Drop>(rt: &impl Eprint, what: &[u8], why: D) {
    let _ = eprintln!(rt; "{}: {why}", Shown(what));
}

// Complains with the error's text, less the number that std puts behind the text of an error of the system.
pub fn fail<R: Eprint + Alloc>(rt: &R, what: &[u8], error: io::Error) {
    let Ok(text) = format!(in rt.alloc(); "{error}") else {
        complain(rt, what, error);
        return;
    };
    let whole = text.as_str();
    let reason = whole
        .split_once(" (os error ")
        .map_or(whole, |parts| parts.0);
    complain(rt, what, reason);
}
