// Prints the maps of the load files that its arguments name, one after the other, or with no argument that of the one on standard input. Where a
// file can't be opened, read or taken whole, a line on standard error says why, and the next one follows.
#![tactic(auto)]

ghost use Rattle.std.specs.Prelude.{◌≤◌, length};

use loadread::check;
use loads::Saved;
use maps::map;
use std::io;
use std::io::Read;
use std::rt::Runtime;
use streams::files::{Takes, take_inputs};
use streams::{complain, fail, read_full};

// The most bytes that are taken of a file. The writer's file of a full memory has 69,127.
const MOST: usize = 100000;

// Enough for the map of any file of so many bytes.
const ROOM: usize = 300016;

// A map is of all addresses that there are.
const ADDRESSES: usize = 65536;

fn write_made(rt: &impl Runtime, out: &[u8], made: Saved)
    requires { made.count ≤ length out.now }
{
    let n = made.count;
    if let Err(error) = rt.write_all(&out[0..n]) {
        fail(rt, b"loadmap: standard output", error);
    }
}

fn write_map(rt: &impl Runtime, file: &[u8]) {
    let mut room = [0u8; ROOM];
    let out = &mut room[..];
    let made = map(file, out);
    write_made(rt, out, made);
}

fn complain_of_length(rt: &impl Runtime, name: &[u8]) {
    complain(
        rt,
        name,
        "no end block within 100,000 bytes, which is all that is taken of a file",
    );
}

// What one more read gives: an error where it fails, above 0 where the file has more bytes.
fn read_more(input: &mut impl Read) -> io::Result<usize> {
    let mut byte = [0u8; 1];
    input.read(&mut byte)
}

// Of a file with more bytes than were taken: no byte behind them can change its map, unless its end block or first fault is among those.
fn map_start(rt: &impl Runtime, file: &[u8], name: &[u8]) {
    let answer = check(file, ADDRESSES);
    if answer.number == 30 {
        complain_of_length(rt, name);
        return;
    }
    write_map(rt, file);
}

// What is done with one input: its map is printed.
struct LoadMap;

impl Takes for LoadMap {
    fn take_input(rt: &impl Runtime, input: &mut impl Read, name: &[u8]) {
        let mut file = [0u8; MOST];
        let n = read_full(input, &mut file);
        match read_more(input) {
            Err(error) => fail(rt, name, error),
            Ok(0) => write_map(rt, &file[..n]),
            Ok(_) => map_start(rt, &file, name),
        }
    }
}

fn main(rt: HostRuntime) {
    take_inputs::<LoadMap>(&rt, b"loadmap: a file's name");
}
