// The entries one by one, in chain order: a cursor stands at a slot, and a step gives the next entry and the cursor past it. So
// nothing is walked twice. A cursor is plain numbers that anyone can make, so a step tests them, and every link that it follows.
// Each slot is read in the 512-word part of the directory that is its segment; `width` is the words of a slot.
#![tactic(auto)]

ghost use Rattle.std.specs.Prelude.{◌≡◌, ◌+◌, ◌*◌, ◌≤◌, length};
ghost use Rattle.meaning.specs.Words.{slot_words, slot_count};
ghost use Rattle.cursor.specs.Cursor.{AtEntry, is_segment, inside, slot_place, is_entry, row_in, first_slot, seen_past, step_at};

use meaning::{Kind, Name};
use segment::entry::Entry;
use segment::kinds;

// A directory has no more.
const MOST_SEGMENTS: usize = 31;

// A segment, a slot in it, both counted from 1, and the first block of an entry that stands there.
#[derive(Clone, Copy)]
pub struct Cursor {
    pub seg: usize,
    pub slot: usize,
    pub first: usize,
}

// An entry: its segment and slot, the place of its first word in the directory, its first block, and its words.
#[derive(Clone, Copy)]
pub struct Seen {
    pub seg: usize,
    pub slot: usize,
    pub at: usize,
    pub first: usize,
    pub kind: Kind,
    pub name: Name,
    pub length: u16,
    pub channel: u16,
    pub date: u16,
}

// The words of a slot.
fn width_of(d: &[u16]) -> usize
    requires { 4 ≤ length d.now }
    ensures { result ≡ slot_words d.now }
{
    7 + (d[3] / 2) as usize
}

// Whether the directory has a segment of this number.
fn is_segment(d: &[u16], number: usize) -> bool
    ensures { result ≡ is_segment d.now number }
{
    1 <= number && number <= d.len() / 512
}

// Whether a cursor stands at a slot, or directly past the last one of its segment. No block is above 65,535.
fn is_inside(d: &[u16], cursor: Cursor) -> bool
    ensures { result ≡ inside d.now cursor }
{
    is_segment(d, cursor.seg)
        && 1 <= cursor.slot
        && cursor.slot <= 507 / width_of(d) + 1
        && cursor.first <= 65535
}

// The word of its segment where a slot begins.
fn word_of(width: usize, slot: usize) -> usize
    requires { (1 ≤ slot) × (slot ≤ slot_count width) }
    ensures { (result ≡ slot_place width slot) × (result + width ≤ 512) }
{
    5 + (slot - 1) * width
}

// Whether an entry stands in this slot of a segment: neither the marker nor the end of the segment's slots.
fn on_entry(segment: &[u16], width: usize, slot: usize) -> bool
    requires { (length segment.now ≡ 512) × (7 ≤ width) × (1 ≤ slot) }
    ensures { result ≡ is_entry width segment.now slot }
{
    slot <= 507 / width && !kinds::is_marker(segment[word_of(width, slot)])
}

// The entry at the cursor, whose segment begins at word `base` of the directory, and the cursor past it. Its length is added in a usize, so
// that no sum is reduced by 65,536.
fn see_entry(segment: &[u16], base: usize, width: usize, cursor: Cursor) -> (Seen, Cursor)
    requires { (length segment.now ≡ 512) × (base + 512 ≤ 18446744073709551615) × (7 ≤ width)
        × (1 ≤ cursor.slot) × (cursor.slot ≤ slot_count width) × (cursor.first ≤ 65535) }
    ensures { result ≡ seen_past (row_in width segment.now base cursor) }
{
    let word = word_of(width, cursor.slot);
    let entry = Entry::new(&segment[word..word + width]);
    let length = entry.blocks();
    let seen = Seen {
        seg: cursor.seg,
        slot: cursor.slot,
        at: base + word,
        first: cursor.first,
        kind: kinds::kind_of(entry.status()),
        name: entry.name(),
        length,
        channel: entry.channel(),
        date: entry.date(),
    };
    let past = Cursor {
        seg: cursor.seg,
        slot: cursor.slot + 1,
        first: cursor.first + length as usize,
    };
    (seen, past)
}

// The cursor at the first slot of a segment.
fn first_slot(d: &[u16], number: usize) -> Cursor
    requires { (1 ≤ number) × (512 * number ≤ length d.now) }
    ensures { (result ≡ first_slot d.now number) × AtEntry d.now result }
{
    Cursor {
        seg: number,
        slot: 1,
        first: d[512 * (number - 1) + 4] as usize,
    }
}

// The cursor before all entries. Of a slice that has no segment too: nothing can be read there.
pub fn start(d: &[u16]) -> Cursor
    ensures { result ≡ first_slot d.now 1 }
{
    Cursor {
        seg: 1,
        slot: 1,
        first: d.get(4).copied().unwrap_or(0) as usize,
    }
}

// One step: an entry and the cursor past it, or nothing where there is no more. A segment may have no entries, so links are followed until
// there is one; at most 31 segments are asked, so that a loop in the chain can't hold the step.
// It is no iterator's `next`: the entries of a looped chain have no end, which an iterator would have to have. `rows` has one, of a sound directory.
pub fn step_from(d: &[u16], cursor: Cursor) -> Option<(Seen, Cursor)>
    ensures { result ≡ step_at d.now cursor }
{
    if !is_inside(d, cursor) {
        return None;
    }
    let width = width_of(d);
    let mut here = cursor;
    for _ in 0..MOST_SEGMENTS {
        let base = 512 * (here.seg - 1);
        let segment = &d[base..base + 512];
        if on_entry(segment, width, here.slot) {
            return Some(see_entry(segment, base, width, here));
        }
        let link = segment[1] as usize;
        if !is_segment(d, link) {
            return None;
        }
        here = first_slot(d, link);
    }
    None
}
