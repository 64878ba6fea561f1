// The entries of a segment, one by one: its slots before the marker. A walk over entries is a `for` over these.
ghost use Rattle.std.specs.Prelude.{◌≡◌, ◌≤◌, length};
ghost use Rattle.std.specs.Iterator.{YieldsFirstBy, item_count};
ghost use Rattle.meaning.specs.Words.{slots, upto};
ghost use Rattle.segment.specs.Entries.{ahead};

use crate::entry::Entry;
use crate::kinds;

// The words behind the entries that have passed, and how many words a slot has.
#[derive(Clone, Copy)]
pub struct Entries<'a> {
    rest: &'a [u16],
    width: usize,
    ghost wide: { 7 ≤ width },
}

// The entries of a segment, from its first slot on.
pub fn entries_of(segment: &[u16], width: usize) -> Entries<'_>
    requires { (length segment.now ≡ 512) × (7 ≤ width) }
    ensures left { ahead result.width result.rest.now ≡ upto (slots width segment.now) }
    ensures few { length (ahead result.width result.rest.now) ≤ 72 }
{
    Entries {
        rest: &segment[5..],
        width,
    }
}

impl<'a> Iterator for Entries<'a> {
    type Item = Entry<'a>;

    ghost next_gives = { YieldsFirstBy (λ e. e.words.now) (λ s. ahead s.width s.rest.now) };

    ghost remaining = { item_count (λ s. ahead s.width s.rest.now) };

    fn next(&mut self) -> Option<Entry<'a>> {
        if self.rest.len() < self.width {
            return None;
        }
        let (words, after) = self.rest.split_at(self.width);
        let entry = Entry::new(words);
        if kinds::is_marker(entry.status()) {
            return None;
        }
        self.rest = after;
        Some(entry)
    }
}
