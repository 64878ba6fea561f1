// One block of a load file. Each routine answers the place after what it wrote, as those of `lines` do, since there is no heap: `Wrote` says what the whole room then holds.
ghost use Rattle.std.specs.Prelude.{[], ◌∷◌, ◌≡◌, ◌+◌, ◌*◌, ◌/◌, ◌%◌, ◌≤◌, ◌<◌, length};
ghost use Rattle.loads.specs.Memory.{bytes_at};
ghost use Rattle.loads.specs.Writing.{checksum, block};
ghost use Rattle.lines.specs.Wrote.{Wrote};

use loads::memory::{byte_at, sum_of};

fn put(out: &mut [u8], place: usize, byte: u8) -> usize
    requires { place < length out.old }
    ensures { Wrote out.old place (byte ∷ []) out.new result }
{
    out[place] = byte;
    place + 1
}

// A 16-bit number, low byte first.
fn put_word(out: &mut [u8], place: usize, word: u16) -> usize
    requires { place + 2 ≤ length out.old }
    ensures { Wrote out.old place (word % 256 ∷ word / 256 ∷ []) out.new result }
{
    let [low, high] = word.to_le_bytes();
    let next = put(out, place, low);
    put(out, next, high)
}

// Byte 1, byte 0, the count and the address.
fn put_header(out: &mut [u8], place: usize, count: u16, address: u16) -> usize
    requires { (place + 6 ≤ length out.old) × (count ≤ 128) }
    ensures { Wrote out.old place (1 ∷ 0 ∷ (6 + count) % 256 ∷ (6 + count) / 256 ∷ address % 256 ∷ address / 256 ∷ []) out.new result }
{
    let counted = put_word(out, place, 1);
    let addressed = put_word(out, counted, 6 + count);
    put_word(out, addressed, address)
}

// The bytes of a range of the memory that begins at an even address, two at a time as long as there are two.
fn put_even(words: &[u16], address: usize, count: usize, out: &mut [u8], place: usize) -> usize
    requires { (address % 2 ≡ 0) × (address + count ≤ 2 * length words.now) × (address + count ≤ 65536)
        × (place + count ≤ length out.old) }
    ensures { Wrote out.old place (bytes_at words.now address count) out.new result }
{
    let first = address / 2;
    let mut next = place;
    for word in &words[first..first + count / 2] {
        next = put_word(out, next, *word);
    }
    if count % 2 == 1 {
        return put(out, next, byte_at(words, address + count - 1));
    }
    next
}

// The bytes of any range of the memory. At an odd address the first byte is the high half of its word.
fn put_data(words: &[u16], address: usize, count: usize, out: &mut [u8], place: usize) -> usize
    requires { (address + count ≤ 2 * length words.now) × (address + count ≤ 65536) × (place + count ≤ length out.old) }
    ensures { Wrote out.old place (bytes_at words.now address count) out.new result }
{
    if address % 2 == 0 {
        return put_even(words, address, count, out, place);
    }
    if count == 0 {
        return place;
    }
    let next = put(out, place, byte_at(words, address));
    put_even(words, address + 1, count - 1, out, next)
}

// The byte that makes the sum of these bytes, with itself, 0 modulo 256.
#[tactic(auto, unfolding(loads::specs::Writing::checksum))]
fn checksum_of(bytes: &[u8]) -> u8
    ensures { result ≡ checksum bytes.now }
{
    0u8.wrapping_sub(sum_of(bytes))
}

// A block of the range's bytes.
pub(crate) fn put_block(
    words: &[u16],
    address: usize,
    count: usize,
    out: &mut [u8],
    place: usize,
) -> usize
    requires { (count ≤ 128) × (address + count ≤ 65536) × (address < 65536) × (address + count ≤ 2 * length words.now)
        × (place + count + 7 ≤ length out.old) }
    ensures { Wrote out.old place (block address (bytes_at words.now address count)) out.new result }
{
    let filled = put_header(out, place, count as u16, address as u16);
    let end = put_data(words, address, count, out, filled);
    let check = checksum_of(&out[place..end]);
    put(out, end, check)
}

// The end block.
pub(crate) fn put_end(out: &mut [u8], place: usize, transfer: u16) -> usize
    requires { place + 7 ≤ length out.old }
    ensures { Wrote out.old place (block transfer []) out.new result }
{
    let end = put_header(out, place, 0, transfer);
    let check = checksum_of(&out[place..end]);
    put(out, end, check)
}
