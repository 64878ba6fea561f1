// Where a file goes. `stands` is the block where its entry stands, `free` the next free block of those that are packed.
ghost use Rattle.std.specs.Prelude.{◌≡◌};
ghost use Rattle.squeezed.specs.Squeeze.{new_place};

use meaning::FILE_BAD;
use segment::entry::Entry;
use segment::naming::is_named;

// FILE.BAD never moves, every other file goes to the next free block.
#[tactic(auto, unfolding(squeezed::specs::Squeeze::new_place, squeezed::specs::Squeeze::is_bad, meaning::specs::Keys::spared))]
pub fn place_at(entry: &Entry<'_>, stands: usize, free: usize) -> usize
    ensures { result ≡ new_place stands free entry.now.words.now }
{
    if is_named(entry, FILE_BAD) {
        stands
    } else {
        free
    }
}
