// A segment's files written anew, packed, each after what is left over before it, and their moves listed.
ghost use Rattle.std.specs.Prelude.{◌+◌, ◌≤◌, length};
ghost use Rattle.meaning.specs.Words.{slots, upto};
ghost use Rattle.segment.specs.Written.{Written};
ghost use Rattle.tally.specs.Walks.{Walkable};
ghost use Rattle.packing.specs.Packs.{left_words, out_words, packed_words, move_out, list_words, Passable, EntryPassed, Walked};

use crate::Place;
use crate::moves::put_move;
use meaning::EMPTY;
use segment::copying::put_words;
use segment::entries::entries_of;
use segment::entry::Entry;
use segment::kinds;
use tally::place::place_at;

// What is left over from the next free block up to this one: nothing, or one empty entry, other words 0. The answer is the place after it. The
// array is as long as the widest slot, of which the first words are written, since there is no heap.
pub fn put_left(out: &mut [u16], at: usize, width: usize, free: usize, block: usize) -> usize
    requires { (7 ≤ width) × (width ≤ 23) × (free ≤ block) × (block ≤ 65535)
        × (at + length (left_words width free block) ≤ length out.old) }
    ensures { Written out.old at (left_words width free block) out.new result }
{
    if free == block {
        return at;
    }
    let mut gap = [0u16; 23];
    gap[0] = EMPTY;
    gap[4] = (block - free) as u16;
    put_words(&gap[..width], out, at)
}

// An entry, copied; the answer is the place after it. Its first seven words go apart, as a copy of seven is a few moves, whereas of a copy of so many
// words as an entry has the compiler makes a call of the C library's (docs/SPEED.md).
fn put_entry(entry: &Entry<'_>, out: &mut [u16], at: usize) -> usize
    requires { at + length entry.now.words.now ≤ length out.old }
    ensures { Written out.old at entry.now.words.now out.new result }
{
    let (seven, extra) = entry.words.split_at(7);
    let next = at + 7;
    out[at..next].copy_from_slice(seven);
    if extra.is_empty() {
        return next;
    }
    put_words(extra, out, next)
}

// What this entry lets out: a file what is left over before it, itself and its move, anything else nothing.
fn pass_entry(
    entry: &Entry<'_>,
    stands: usize,
    so_far: Place,
    out: &mut [u16],
    list: &mut [u16],
) -> Place
    requires { Passable entry.now.words.now stands so_far.free
        × (so_far.at + length (out_words (length entry.now.words.now) stands so_far.free entry.now.words.now) ≤ length out.old)
        × (so_far.listed + length (move_out stands so_far.free entry.now.words.now) ≤ length list.old) }
    ensures { EntryPassed entry.now.words.now stands so_far out.old out.new list.old list.new result }
{
    if !kinds::is_permanent(entry.status()) {
        return so_far;
    }
    let blocks = entry.blocks();
    let place = place_at(entry, stands, so_far.free);
    let next = put_left(out, so_far.at, entry.words.len(), so_far.free, place);
    Place {
        at: put_entry(entry, out, next),
        listed: put_move(list, so_far.listed, stands, place, blocks),
        free: place + blocks as usize,
    }
}

// All entries of a segment.
pub fn pass_entries(
    segment: &[u16],
    width: usize,
    stands: usize,
    start: Place,
    out: &mut [u16],
    list: &mut [u16],
) -> Place
    requires { Walkable width segment.now stands start.free
        × (start.at + length (packed_words width stands start.free (upto (slots width segment.now))) ≤ length out.old)
        × (start.listed + length (list_words stands start.free (upto (slots width segment.now))) ≤ length list.old) }
    ensures { Walked (packed_words width) width segment.now stands start.free out.old start.at
        out.new result.at result.free
        × Walked list_words width segment.now stands start.free list.old start.listed list.new
        result.listed result.free }
{
    let mut block: usize = stands;
    let mut so_far = start;
    for entry in entries_of(segment, width) {
        so_far = pass_entry(&entry, block, so_far, out, list);
        block += entry.blocks() as usize;
    }
    so_far
}
