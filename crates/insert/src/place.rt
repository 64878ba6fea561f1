// The new entry placed in the area that was chosen: inserted into its segment, in place, or into a half of it after a split, where both
// halves are made anew.
ghost use Rattle.std.specs.Prelude.{◌≡◌, ◌+◌, ◌≤◌, ◌<◌, length};
ghost use Rattle.meaning.specs.Words.{slot_words, slot_count, capacity, slots, upto, entries};
ghost use Rattle.meaning.specs.Enter.{unsplit, split, entered, new_after, split_at, entered_at};
ghost use Rattle.chain.specs.Chained.{Chained};
ghost use Rattle.render.specs.Anew.{new_entry};
ghost use Rattle.insert.specs.Spots.{area_of, Chosen, Slot, Half, whole_segment, old_segment, fresh_segment, Splittable, Enterable, Put, half_at};

use meaning::Position;
use render::{Tentative, measure};
use segment::copying::copy_words;
use segment::count;

// The area chosen: its segment, how many of the segment's entries stand before it, the word where its slot begins, and its cost.
#[derive(Clone, Copy)]
pub struct Spot {
    pub seg: usize,
    pub before: usize,
    pub word: usize,
    pub cost: usize,
}

// How many words a slot has.
fn slot_words(directory: &[u16]) -> usize
    requires { Chained directory.now }
    ensures { result ≡ slot_words directory.now }
{
    7 + (directory[3] / 2) as usize
}

// The new entry inserted into the words of its segment, which has this many entries and room for more.
fn insert_whole(segment: &mut [u16], count: usize, spot: Spot, new: &[u16])
    requires { Slot segment.old new.now spot × (count ≡ length (upto (slots (length new.now) segment.old))) × (1 ≤ spot.cost)
        × (spot.cost ≤ 2) × (count + spot.cost < slot_count (length new.now)) }
    ensures { segment.new ≡ whole_segment segment.old new.now spot }
{
    let stop = 5 + count * new.len();
    render::insert_words(segment, stop, spot.word, spot.cost, new);
}

// The new entry inserted into the segment of the area, which has this many entries and room for more.
pub fn insert(directory: &mut [u16], spot: Spot, count: usize, new: Tentative)
    requires { Chained directory.old × Chosen directory.old spot new.length
        × (count ≡ length (entries directory.old spot.seg)) × (count + spot.cost ≤ capacity directory.old) }
    ensures { directory.new ≡ unsplit directory.old (new_entry (slot_words directory.old) new)
        new.length (area_of spot) }
{
    let width = slot_words(directory);
    let entry = render::entry_words(new);
    let base = 512 * (spot.seg - 1);
    let end = base + 512;
    insert_whole(&mut directory[base..end], count, spot, &entry[..width]);
}

// The old segment of a split: the entries that are kept, linked to the next segment. The new entry goes here if its area is kept.
fn old_segment(segment: &[u16], kept: usize, next: u16, spot: Spot, new: &[u16]) -> [u16; 512]
    requires { Half segment.now new.now spot kept }
    ensures { result ≡ old_segment segment.now new.now spot kept next }
{
    let stop = 5 + kept * new.len();
    let mut header = [0u16; 5];
    header.copy_from_slice(&segment[..5]);
    header[1] = next;
    let slots = &segment[5..stop];
    if spot.before < kept {
        render::inserted_segment(&header, slots, spot.word - 5, spot.cost, new)
    } else {
        render::plain_segment(&header, slots)
    }
}

// The new segment of a split: the rest of the entries, with the old link. The new entry goes here if its area is among the rest.
// `total` and `extra` are the header words of segment 1.
fn fresh_segment(
    segment: &[u16],
    count: usize,
    kept: usize,
    total: u16,
    extra: u16,
    spot: Spot,
    new: &[u16],
) -> [u16; 512]
    requires { Half segment.now new.now spot kept × (count ≡ length (upto (slots (length new.now) segment.now))) }
    ensures { result ≡ fresh_segment segment.now new.now spot kept total extra }
{
    let width = new.len();
    let start = 5 + kept * width;
    let stop = 5 + count * width;
    let first = segment[4] as usize + measure::sum_lengths(segment, width, kept);
    let header = [total, segment[1], 0, extra, first as u16];
    let slots = &segment[start..stop];
    if spot.before < kept {
        render::plain_segment(&header, slots)
    } else {
        render::inserted_segment(&header, slots, spot.word - start, spot.cost, new)
    }
}

// Where the new entry is after so many entries of a segment: in the last of the slots that it costs.
fn new_after(segment: usize, before: usize, cost: usize) -> Position
    requires { (segment ≤ 65535) × (before + cost ≤ 65535) }
    ensures { result ≡ new_after segment before cost }
{
    Position {
        segment: segment as u16,
        slot: (before + cost) as u16,
    }
}

// Where the new entry is after a split: in the half that has its area.
fn half_position(spot: Spot, kept: usize, next: usize) -> Position
    requires { (spot.seg ≤ 65535) × (next ≤ 65535) × (spot.before + spot.cost ≤ 65535) }
    ensures { result ≡ half_at spot kept next }
{
    if spot.before < kept {
        new_after(spot.seg, spot.before, spot.cost)
    } else {
        new_after(next, spot.before - kept, spot.cost)
    }
}

// The segment of the area split in two, and the new entry inserted into the half that has the area. Answers where it is.
pub fn split_and_insert(directory: &mut [u16], spot: Spot, count: usize, new: Tentative) -> Position
    requires { Chained directory.old × Chosen directory.old spot new.length
        × (count ≡ length (entries directory.old spot.seg)) × Splittable directory.old spot.seg }
    ensures { Put result directory.new (split_at directory.old (area_of spot))
        (split directory.old (new_entry (slot_words directory.old) new) new.length (area_of spot)) }
{
    let width = slot_words(directory);
    let entry = render::entry_words(new);
    let base = 512 * (spot.seg - 1);
    let end = base + 512;
    let highest = directory[2];
    let next = highest + 1;
    let part = &directory[base..end];
    let words = &entry[..width];
    let kept = measure::count_kept(part, width, count);
    let old = old_segment(part, kept, next, spot, words);
    let fresh = fresh_segment(part, count, kept, directory[0], directory[3], spot, words);
    copy_words(&old, directory, base);
    copy_words(&fresh, directory, 512 * highest as usize);
    directory[2] = next;
    half_position(spot, kept, next as usize)
}

// A split comes only where the area's segment has not the slots; its marker needs one too. Answers where the new entry is.
pub fn enter_area(directory: &mut [u16], spot: Spot, new: Tentative) -> Position
    requires { Enterable directory.old spot new.length }
    ensures { Put result directory.new (entered_at directory.old (area_of spot))
        (entered directory.old (new_entry (slot_words directory.old) new) new.length (area_of spot)) }
{
    let width = slot_words(directory);
    let base = 512 * (spot.seg - 1);
    let end = base + 512;
    let count = count::count_entries(&directory[base..end], width);
    if count + spot.cost < 507 / width {
        insert(directory, spot, count, new);
        return new_after(spot.seg, spot.before, spot.cost);
    }
    split_and_insert(directory, spot, count, new)
}
