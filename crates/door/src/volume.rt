// The requests on a whole volume: its fault, and a fresh start. Any words and any V may be handed in. A refusal answers zeros and changes no word.
ghost use Rattle.std.specs.Prelude.{◌≡◌};
ghost use Rattle.meaning.specs.Sound.{fault};
ghost use Rattle.meaning.specs.Requests.{fresh};
ghost use Rattle.meaning.specs.Answers.{Meets};
ghost use Rattle.meaning.specs.Told.{told};

use chain::head::size_wrong;
use directory::sound::fault_of;
use edits::fresh::start_fresh;
use meaning::{Answer, Granted, Position, Refusal};

// The number of the smallest fault, 1 to 6, or 0 for a sound directory.
pub fn fault(d: &[u16], v: usize) -> u16
    ensures { result ≡ fault v d.now }
{
    fault_of(d, v)
}

// A fresh start tests only 1, and then 2 for more than 16 extra words. It answers its one area, the first entry of segment 1.
pub fn fresh(d: &mut [u16], v: usize, extra: usize) -> Answer
    ensures { Meets result d.new (fresh v d.old extra) }
{
    Answer::from(started(d, v, extra))
}

fn started(d: &mut [u16], v: usize, extra: usize) -> Result<Granted, Refusal>
    ensures { Meets (told result) d.new (fresh v d.old extra) }
{
    if size_wrong(v, d.len()) {
        return Err(Refusal::WrongSizes);
    }
    if 16 < extra {
        return Err(Refusal::WrongExtra);
    }
    let first = 6 + 2 * (d.len() / 512);
    start_fresh(d, v, extra);
    Ok(Granted {
        first: first as u16,
        length: (v - first) as u16,
        date: 0,
        position: Position {
            segment: 1,
            slot: 1,
        },
    })
}
