// The reader of absolute load files (document 02, Req 10). A whole stream is read twice: first it is checked, and nothing is stored; then, where it is
// accepted, its data are stored.
#![tactic(auto)]

ghost use Rattle.std.specs.Prelude.{◌≡◌};
ghost use Rattle.loads.specs.Memory.{limit};
ghost use Rattle.loads.specs.Reading.{answer_of, stored_by, read_from, fill_from, load_answer, load_memory};
ghost use Rattle.loadread.specs.Heads.{head_part, HasHead, Storable};

use loads::blocks::{part_of, right_block};
use loads::memory::{put_bytes, size_of};
use loads::{Fault, Loaded, Part};

fn answer_of(part: Part) -> Loaded
    ensures { result ≡ answer_of part }
{
    match part {
        Part::Gap | Part::Block(_, _) => Loaded {
            number: Fault::Short.number(),
            transfer: 0,
        },
        Part::End(transfer) => Loaded {
            number: 0,
            transfer,
        },
        Part::Refused(number) => Loaded {
            number,
            transfer: 0,
        },
    }
}

// Checks a load file: the answer over a memory of so many bytes, which is not looked at.
#[tactic(auto, using(crate::proofs::Known::check_begins, crate::proofs::Known::check_passes, crate::proofs::Known::check_goes, crate::proofs::Known::check_ends))]
pub fn check(stream: &[u8], size: usize) -> Loaded
    ensures { result ≡ read_from size 0 stream.now }
{
    let mut rest = stream;
    let mut part = part_of(stream, size);
    while let Some(length) = part.length() {
        rest = &rest[length..];
        part = part_of(rest, size);
    }
    answer_of(part)
}

// What a stream goes on with that is known to be accepted, by the header alone.
#[tactic(auto, using(crate::proofs::Known::head_gap, crate::proofs::Known::head_block))]
fn head_part(rest: &[u8]) -> Part
    requires { HasHead rest.now }
    ensures { result ≡ head_part rest.now }
{
    if rest[0] == 0 {
        return Part::Gap;
    }
    right_block(rest)
}

// The data of a block, which `rest` begins with, stored; another part has none.
#[tactic(auto, using(crate::proofs::Known::block_stored))]
fn put_part(part: Part, rest: &[u8], words: &mut [u16])
    requires { Storable part rest.now words.old }
    ensures { words.new ≡ stored_by part rest.now words.old }
{
    if let Part::Block(address, count) = part {
        put_bytes(words, address as usize, &rest[6..6 + count as usize]);
    }
}

// The data of all blocks of a stream that is accepted.
#[tactic(auto, using(crate::proofs::Known::store_begins, crate::proofs::Known::store_has, crate::proofs::Known::store_passes, crate::proofs::Known::store_head, crate::proofs::Known::store_goes, crate::proofs::Known::store_ends, crate::proofs::Known::has_head), unfolding(loads::specs::Reading::load_answer))]
fn store(stream: &[u8], words: &mut [u16])
    requires { (load_answer stream.now words.old).number ≡ 0 }
    ensures { words.new ≡ fill_from (limit words.old) 0 stream.now words.old }
{
    let mut rest = stream;
    let mut part = head_part(stream);
    while let Some(length) = part.length() {
        put_part(part, rest, words);
        rest = &rest[length..];
        part = head_part(rest);
    }
}

// Reads a load file into the memory: 0 and the transfer address, or the number of the refusal and nothing changed.
#[tactic(auto, using(crate::proofs::Known::load_answers, crate::proofs::Known::load_refused, crate::proofs::Known::load_stored))]
pub fn load(stream: &[u8], words: &mut [u16]) -> Loaded
    ensures { (result ≡ load_answer stream.now words.old)
        × (words.new ≡ load_memory stream.now words.old) }
{
    let answer = check(stream, size_of(words));
    if answer.number == 0 {
        store(stream, words);
    }
    answer
}
