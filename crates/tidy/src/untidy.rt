// Whether the tidy changes a segment: most often it does not, and then nothing is built or written.
ghost use Rattle.std.specs.Prelude.{◌≡◌, ◌≤◌, length};
ghost use Rattle.meaning.specs.Kinds.{kind_of};
ghost use Rattle.meaning.specs.Words.{kind, blocks, slots, upto};
ghost use Rattle.meaning.specs.Enter.{untidy};
ghost use Rattle.tidy.specs.Changes.{changes};

use segment::entries::entries_of;
use segment::entry::Entry;
use segment::kinds;

// Whether the tidy changes an entry: an empty one directly after another joins it, and one of length 0 goes if no tentative entry
// needs it. `before` is the status of the slot before, or 0.
#[tactic(auto, unfolding(crate::specs::Changes::changes))]
fn is_changed(before: u16, entry: &Entry<'_>) -> bool
    ensures { result ≡ changes (kind_of before) (kind entry.now.words.now) (blocks entry.now.words.now) }
{
    kinds::is_empty(entry.status())
        && (kinds::is_empty(before) || entry.blocks() == 0 && !kinds::is_tentative(before))
}

// Whether the entries of a segment are untidy.
pub fn is_untidy(segment: &[u16], width: usize) -> bool
    requires { (length segment.now ≡ 512) × (7 ≤ width) × (width ≤ 23) }
    ensures { result ≡ untidy (upto (slots width segment.now)) }
{
    let mut before: u16 = 0;
    for entry in entries_of(segment, width) {
        if is_changed(before, &entry) {
            return true;
        }
        before = entry.status();
    }
    false
}
