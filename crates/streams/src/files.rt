// The inputs of a program that takes files: those that its arguments name, one after the other, or with no argument standard input.
use crate::{PATH_MAX, arg, arg_count, fail, open_read};
use std::io::Read;
use std::rt::Runtime;

// What a program does with one open input. It tells a failure under the name. A trait, since a closure can't be generic over the reader.
pub trait Takes {
    fn take_input(rt: &impl Runtime, input: &mut impl Read, name: &[u8]);
}

fn take_file<P: Takes>(rt: &impl Runtime, path: &[u8]) {
    match open_read(rt, path) {
        Err(error) => fail(rt, path, error),
        Ok(mut file) => P::take_input(rt, &mut file, path),
    }
}

fn take_argument<P: Takes>(rt: &impl Runtime, i: usize, unnamed: &[u8]) {
    let mut path = [0u8; PATH_MAX];
    match arg(rt, i, &mut path) {
        Err(error) => fail(rt, unnamed, error),
        Ok(n) => take_file::<P>(rt, &path[..n]),
    }
}

// Hands each input to the program. A file that can't be opened is told under its name, an argument that can't be had under `unnamed`, and the next
// one follows. No `ensures`: it answers nothing and changes no value that a clause can name.
pub fn take_inputs<P: Takes>(rt: &impl Runtime, unnamed: &[u8]) {
    let count = arg_count(rt);
    if count < 2 {
        P::take_input(rt, &mut rt.reader(), b"standard input");
        return;
    }
    // The program's own name is argument 0.
    for i in 1..count {
        take_argument::<P>(rt, i, unnamed);
    }
}
