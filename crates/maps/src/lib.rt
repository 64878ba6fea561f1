// The map of a load file: a line for each data block, and a last one for what ends the file. Each routine but `map` writes into lent room from the
// place `at` on, and answers the place after its bytes: no heap, as in `lines`.
#![tactic(auto)]

ghost use Rattle.std.specs.Prelude.{◌≡◌, true, ◌+◌, ◌≤◌, length};
ghost use Rattle.lines.specs.Wrote.{Wrote, WroteAtMost};
ghost use Rattle.maps.specs.Maps.{octal_digit, octal, block_line, transfer_line, line_of, map_fits, map_text, map_answer, map_output};
ghost use Rattle.maps.specs.Bounds.{Mappable, most_of};

use lines::{put_bytes, refused_line, six_wide};
use loads::blocks::part_of;
use loads::{Part, Saved, TOO_SHORT};

// The map is of any memory: of all addresses that there are.
const ADDRESSES: usize = 65536;

// The last octal digit of a number.
fn digit(n: usize) -> u8
    ensures { result ≡ octal_digit n }
{
    b'0' + (n % 8) as u8
}

// An address in six octal digits.
fn put_octal(out: &mut [u8], at: usize, n: usize) -> usize
    requires { at + 6 ≤ length out.old }
    ensures { WroteAtMost 6 out.old at (octal n) out.new result }
{
    let text = [
        digit(n / 32768),
        digit(n / 4096),
        digit(n / 512),
        digit(n / 64),
        digit(n / 8),
        digit(n),
    ];
    put_bytes(out, at, &text)
}

// The line of a data block: the addresses of its first and last byte, and how many it has.
fn block_line(out: &mut [u8], at: usize, address: usize, count: usize) -> usize
    requires { (1 ≤ count) × (address + count ≤ 65536) × (count ≤ 65535) × (at + 20 ≤ length out.old) }
    ensures { WroteAtMost 20 out.old at (block_line address count) out.new result }
{
    let mut next = put_octal(out, at, address);
    out[next] = b'-';
    next = put_octal(out, next + 1, address + count - 1);
    next = six_wide(out, next, count);
    out[next] = b'\n';
    next + 1
}

// The line of the end block.
fn transfer_line(out: &mut [u8], at: usize, transfer: usize) -> usize
    requires { at + 16 ≤ length out.old }
    ensures { WroteAtMost 16 out.old at (transfer_line transfer) out.new result }
{
    let mut next = put_bytes(out, at, b"TRANSFER ");
    next = put_octal(out, next, transfer);
    out[next] = b'\n';
    next + 1
}

// What the map shows of a part: nothing of a gap.
fn put_line(out: &mut [u8], at: usize, part: Part) -> usize
    requires { Mappable part × (at + most_of part ≤ length out.old) }
    ensures { WroteAtMost (most_of part) out.old at (line_of part) out.new result }
{
    match part {
        Part::Gap => at,
        Part::Block(address, count) => block_line(out, at, address as usize, count as usize),
        Part::End(transfer) => transfer_line(out, at, transfer as usize),
        Part::Refused(number) => refused_line(out, at, number as usize),
    }
}

// Three bytes for each byte of the stream, and 16 more, are enough for its map. The product is never made: it could pass 64 bits.
#[tactic(auto, using(crate::proofs::Mapping::room_by_lem, crate::proofs::Mapping::no_room))]
fn has_room(stream: usize, room: usize) -> bool
    ensures { result ≡ map_fits stream room }
{
    room >= 16 && stream <= (room - 16) / 3
}

// The whole map at the start of room that is known to be enough; answers how many bytes it has.
#[tactic(auto, using(crate::proofs::Mapping::map_begins, crate::proofs::Mapping::map_shown, crate::proofs::Mapping::map_last_room))]
fn put_map(stream: &[u8], out: &mut [u8]) -> usize
    requires { map_fits (length stream.now) (length out.old) ≡ true }
    ensures { Wrote out.old 0 (map_text stream.now) out.new result }
{
    let mut rest = stream;
    let mut next = 0;
    let mut part = part_of(stream, ADDRESSES);
    while let Some(length) = part.length() {
        next = put_line(out, next, part);
        rest = &rest[length..];
        part = part_of(rest, ADDRESSES);
    }
    put_line(out, next, part)
}

// Writes the map of a load file into the lent room: 0 and how many bytes it has; or 24 where the room is too short for any map of so many bytes,
// and nothing changed.
pub fn map(stream: &[u8], out: &mut [u8]) -> Saved
    ensures { (result ≡ map_answer stream.now (length out.old))
        × (out.new ≡ map_output stream.now out.old)
        × (result.count ≤ length out.new) }
{
    if !has_room(stream.len(), out.len()) {
        return Saved::refused(TOO_SHORT);
    }
    let count = put_map(stream, out);
    Saved { number: 0, count }
}
