// One segment: how many moves its files take, and how many entries it will have.
ghost use Rattle.std.specs.Prelude.{◌≡◌, ◌≤◌};
ghost use Rattle.tally.specs.Tallied.{move_count, entry_count, file_tallied, tally_after, EntryTallyable, Tallyable, TalliedTo};

use crate::place::place_at;
use segment::entries::entries_of;
use segment::entry::Entry;
use segment::kinds;

// The next free block, the moves so far, and the entries so far of the segment at hand.
#[derive(Clone, Copy)]
pub struct Tally {
    pub free: usize,
    pub moves: usize,
    pub entries: usize,
}

// One move for a file with blocks that changes place.
#[tactic(auto, unfolding(squeezed::specs::Moves::idle))]
fn move_count(stands: usize, place: usize, blocks: u16) -> usize
    ensures { result ≡ move_count stands place blocks }
{
    usize::from(stands != place && blocks != 0)
}

// The file's own entry, and one for what is left over before it.
fn entry_count(free: usize, place: usize) -> usize
    ensures { result ≡ entry_count free place }
{
    1 + usize::from(free != place)
}

impl Tally {
    // The tally with one file more, which goes to this place. What is counted so far is bounded only so that no sum wraps.
    fn with_file(self, stands: usize, place: usize, blocks: u16) -> Tally
        requires { (place ≤ 65535) × (self.moves ≤ 100000) × (self.entries ≤ 100000) }
        ensures { result ≡ file_tallied stands self place blocks }
    {
        Tally {
            free: place + blocks as usize,
            moves: self.moves + move_count(stands, place, blocks),
            entries: self.entries + entry_count(self.free, place),
        }
    }

    // The tally with this entry, which stands at this block. A function of its own, so that the walk has no branch whose two ways go on.
    #[tactic(auto, unfolding(crate::specs::Tallied::tally_after, squeezed::specs::Squeeze::is_file))]
    fn with_entry(self, entry: &Entry<'_>, stands: usize) -> Tally
        requires { EntryTallyable stands self }
        ensures { result ≡ tally_after stands self entry.now.words.now }
    {
        if !kinds::is_permanent(entry.status()) {
            return self;
        }
        self.with_file(stands, place_at(entry, stands, self.free), entry.blocks())
    }
}

// The tally with all entries of a segment that begins at this block.
pub fn tally_segment(segment: &[u16], width: usize, stands: usize, t: Tally) -> Tally
    requires { Tallyable width segment.now stands t }
    ensures { TalliedTo width segment.now stands t result }
{
    let mut block: usize = stands;
    let mut so_far = t;
    for entry in entries_of(segment, width) {
        so_far = so_far.with_entry(&entry, block);
        block += entry.blocks() as usize;
    }
    so_far
}
