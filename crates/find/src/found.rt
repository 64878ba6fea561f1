// What requests do with an entry that was looked for: ask whether it is protected, grant it, or give it another status.
ghost use Rattle.std.specs.Prelude.{ℕ, ◌≡◌};
ghost use Rattle.meaning.specs.Sound.{fault};
ghost use Rattle.meaning.specs.Answers.{Meets};
ghost use Rattle.find.specs.Find.{protected_at, FitsWords, entry_with, entry_at, told_by, restated};

use crate::find_entry;
use edits::change::give_status;
use meaning::{Granted, Key, Position};
use segment::finder::Place;
use segment::kinds;

// Whether a protected file was found.
pub fn is_protected(found: Option<Place>) -> bool
    ensures { result ≡ protected_at found }
{
    found.is_some_and(|place| kinds::is_protected(place.status))
}

// The entry at a place is granted, which has this length afterwards; in a sound directory its numbers fit words.
pub fn granted_with(place: Place, length: u16) -> Granted
    requires { FitsWords place }
    ensures { result ≡ entry_with place length }
{
    Granted {
        first: place.first as u16,
        length,
        date: place.date,
        position: Position {
            segment: place.seg as u16,
            slot: place.slot as u16,
        },
    }
}

pub fn granted(place: Place) -> Granted
    requires { FitsWords place }
    ensures { result ≡ entry_at place }
{
    granted_with(place, place.length)
}

// The entry that is looked for gets another status; where there is none, that refusal, of whatever kind: the promise holds for any numbers
// that refusals have.
pub fn restate_found<E: Copy>(
    d: &mut [u16],
    v: usize,
    key: Key,
    missing: E,
    status: u16,
) -> Result<Granted, E>
    requires { fault v d.old ≡ 0 }
    ensures { (number : E → ℕ) → Meets (told_by number result) d.new (restated d.old key (number missing) status) }
{
    let Some(place) = find_entry(d, key) else {
        return Err(missing);
    };
    give_status(d, place.at, status);
    Ok(granted(place))
}
