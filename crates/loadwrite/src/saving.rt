// A whole load file: its data blocks, the shorter last one, and the end block.
ghost use Rattle.std.specs.Prelude.{◌≡◌, ◌+◌, ◌*◌, ◌≤◌, ◌<◌, length};
ghost use Rattle.loads.specs.Writing.{full_blocks, short_block, load_file, save_answer, save_output};
ghost use Rattle.lines.specs.Wrote.{Wrote};
ghost use Rattle.loadwrite.specs.Sizes.{file_size};

use crate::blocks::{put_block, put_end};
use loads::memory::size_of;
use loads::{Fault, Saved, TOO_SHORT};

// The data blocks of 128 bytes.
fn put_full(words: &[u16], address: usize, blocks: usize, out: &mut [u8], place: usize) -> usize
    requires { (address + blocks * 128 ≤ 65536) × (address + blocks * 128 ≤ 2 * length words.now) × (place + blocks * 135 ≤ length out.old) }
    ensures { Wrote out.old place (full_blocks words.now address blocks) out.new result }
{
    let mut next = place;
    for i in 0..blocks {
        next = put_block(words, address + i * 128, 128, out, next);
    }
    next
}

// The shorter one, if any bytes are left.
fn put_short(words: &[u16], address: usize, count: usize, out: &mut [u8], place: usize) -> usize
    requires { (count ≤ 128) × (address + count ≤ 65536) × (address + count ≤ 2 * length words.now) × (place + count + 7 ≤ length out.old) }
    ensures { Wrote out.old place (short_block words.now address count) out.new result }
{
    if count == 0 {
        return place;
    }
    put_block(words, address, count, out, place)
}

// How many bytes a file of this many data bytes has.
#[tactic(auto, unfolding(crate::specs::Sizes::file_size))]
fn size_for(count: usize) -> usize
    requires { count ≤ 65536 }
    ensures { result ≡ file_size count }
{
    let full = count / 128 * 135;
    match count % 128 {
        0 => full + 7,
        rest => full + (rest + 7) + 7,
    }
}

// The whole file, at the start of the room.
fn put_file(words: &[u16], address: usize, count: usize, transfer: u16, out: &mut [u8]) -> usize
    requires { (address + count ≤ 65536) × (address + count ≤ 2 * length words.now) × (file_size count ≤ length out.old) }
    ensures { Wrote out.old 0 (load_file words.now address count transfer) out.new result }
{
    let many = count / 128;
    let full = put_full(words, address, many, out, 0);
    let short = put_short(words, address + many * 128, count % 128, out, full);
    put_end(out, short, transfer)
}

// The load file of `count` bytes of the memory from `start` on, made in the lent room. `start + count` is never made: it could pass 64 bits.
pub fn save(words: &[u16], start: usize, count: usize, transfer: u16, out: &mut [u8]) -> Saved
    ensures { (result ≡ save_answer words.now start count transfer (length out.old))
        × (out.new ≡ save_output words.now start count transfer out.old) }
{
    let size = size_of(words);
    if size < start || size - start < count {
        return Saved::refused(Fault::Outside.number());
    }
    let need = size_for(count);
    if out.len() < need {
        return Saved::refused(TOO_SHORT);
    }
    put_file(words, start, count, transfer, out);
    Saved {
        number: 0,
        count: need,
    }
}
