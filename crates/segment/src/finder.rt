// The first entry of a segment that is looked for, with its place in the directory.
ghost use Rattle.std.specs.Prelude.{◌≡◌, ◌≤◌, length};
ghost use Rattle.meaning.specs.Keys.{holds};
ghost use Rattle.segment.specs.Finder.{FoundIn};

use crate::entries::entries_of;
use crate::entry::Entry;
use crate::kinds;
use crate::naming::is_named;
use meaning::Key;

// Where an entry stands: its segment and slot, both counted from 1, the place of its first word in the directory, and its first
// block; with the status, length and date of its entry, which requests ask for.
#[derive(Clone, Copy)]
pub struct Place {
    pub seg: usize,
    pub slot: usize,
    pub at: usize,
    pub first: usize,
    pub status: u16,
    pub length: u16,
    pub date: u16,
}

// Whether an entry is of the key; the first test that fails decides. A file is asked for its name first, which differs nearly always in its
// first word, whereas files and areas may alternate; and then for its kind, since a tentative entry may have the same name. A channel is
// asked for its kind first: the channel word of a permanent entry means nothing.
pub fn slot_keyed(entry: &Entry<'_>, key: Key) -> bool
    ensures { result ≡ holds key entry.now.words.now }
{
    match key {
        Key::File(name) => is_named(entry, name) && kinds::is_permanent(entry.status()),
        Key::Open(channel) => kinds::is_tentative(entry.status()) && entry.channel() == channel,
    }
}

// The first entry looked for in the segment of this number, whose words begin at word `base` of the directory and whose blocks
// begin at `first`. Only what each entry needs is counted along, since a search passes thousands of them: slot and word are made of the count where an
// entry is found.
pub fn find_in(
    segment: &[u16],
    width: usize,
    number: usize,
    base: usize,
    first: usize,
    key: Key,
) -> Option<Place>
    requires { (length segment.now ≡ 512) × (7 ≤ width) × (width ≤ 23) × (base ≤ 65536) × (first ≤ 65535) }
    ensures { FoundIn result segment.now width number base first key }
{
    let mut block: usize = first;
    for (passed, entry) in entries_of(segment, width).enumerate() {
        if slot_keyed(&entry, key) {
            return Some(Place {
                seg: number,
                slot: passed + 1,
                at: base + 5 + passed * width,
                first: block,
                status: entry.status(),
                length: entry.blocks(),
                date: entry.date(),
            });
        }
        block += entry.blocks() as usize;
    }
    None
}
