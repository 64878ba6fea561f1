// Lists the head files that its arguments name, one after the other, or with no argument the one on standard input. Where a file can't be
// opened or read, a line on standard error says why, and the next one follows.
#![tactic(auto)]

ghost use Rattle.std.specs.Prelude.{◌≤◌, length};

use listing::{ROOM, listing};
use std::io;
use std::io::Read;
use std::rt::Runtime;
use streams::files::{Takes, take_inputs};
use streams::{fail, read_full};

// One byte more than a good head file has at most, so that a longer one is seen to be too long.
const MOST: usize = 32264;

fn write_start(rt: &impl Runtime, out: &[u8; ROOM], n: usize)
    requires { n ≤ length out.now }
{
    let whole = &out[..];
    if let Err(error) = rt.write_all(&whole[0..n]) {
        fail(rt, b"list: standard output", error);
    }
}

fn write_listing(rt: &impl Runtime, file: &[u8]) {
    let mut out = [0u8; ROOM];
    let n = listing(file, &mut out);
    write_start(rt, &out, n);
}

// The error of a read that fails here. A short count of bytes is the file's end or a read that failed, and this tells which.
fn read_error(input: &mut impl Read) -> Option<io::Error> {
    let mut byte = [0u8; 1];
    input.read(&mut byte).err()
}

// What is done with one input: it is listed.
struct List;

impl Takes for List {
    fn take_input(rt: &impl Runtime, input: &mut impl Read, name: &[u8]) {
        let mut file = [0u8; MOST];
        let n = read_full(input, &mut file);
        if n < MOST {
            if let Some(error) = read_error(input) {
                fail(rt, name, error);
                return;
            }
        }
        write_listing(rt, &file[..n]);
    }
}

fn main(rt: HostRuntime) {
    take_inputs::<List>(&rt, b"list: a file's name");
}
