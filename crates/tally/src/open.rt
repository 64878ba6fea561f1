// Refusal 21: whether an entry of the chain is tentative. A squeeze would move blocks that an open channel still writes.
ghost use Rattle.std.specs.Prelude.{◌≡◌, ◌≤◌, length};
ghost use Rattle.meaning.specs.Words.{slots, upto};
ghost use Rattle.chain.specs.Chained.{Chained};
ghost use Rattle.squeezed.specs.Squeeze.{has_tentative};
ghost use Rattle.tally.specs.Surveyed.{any_open};

use segment::entries::entries_of;
use segment::kinds;

// Whether an entry of this segment is.
fn open_in(segment: &[u16], width: usize) -> bool
    requires { (length segment.now ≡ 512) × (7 ≤ width) }
    ensures { result ≡ any_open (upto (slots width segment.now)) }
{
    let mut entries = entries_of(segment, width);
    entries.any(|entry| kinds::is_tentative(entry.status()))
}

// Whether an entry of the chain is.
pub fn open_chain(words: &[u16]) -> bool
    requires { Chained words.now }
    ensures { result ≡ has_tentative words.now }
{
    let width = 7 + (words[3] / 2) as usize;
    let mut number: usize = 1;
    for _ in 0..words[2] {
        let base = 512 * (number - 1);
        if open_in(&words[base..base + 512], width) {
            return true;
        }
        number = words[base + 1] as usize;
    }
    false
}
