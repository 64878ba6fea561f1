// Squeeze (document 02, Req 05): any words, any V and any lent list may be handed in. The directory's fault is tested first, then 21, 24 and
// 26 on passes that only read; what is not refused is carried out on one pass more. A refusal changes no word of either slice.
#![tactic(auto)]

ghost use Rattle.std.specs.Prelude.{◌≡◌, length};
ghost use Rattle.meaning.specs.Sound.{fault};
ghost use Rattle.squeezed.specs.Squeeze.{squeeze};
ghost use Rattle.squeeze.specs.Reports.{number_of, told, judged, Reports};

use directory::sound::fault_of;
use packing::anew::pack_chain;
use tally::open::open_chain;
use tally::survey::survey_chain;

// 0 and how many moves are listed, three words each, or the number of the refusal and 0. A number and no Result: that is how the manual and the
// contract of `squeeze` have it.
#[derive(Clone, Copy)]
pub struct Report {
    pub number: u16,
    pub count: usize,
}

// Why a sound directory is not squeezed: an entry is tentative, the lent list is too short, or a segment would get more entries than it can hold.
#[derive(Clone, Copy, PartialEq, Eq)]
pub enum Refusal {
    Tentative,
    ShortList,
    Overfull,
}

// The number by which a user knows a refusal.
impl From<Refusal> for u16 {
    ghost from_gives = { λ r n. n ≡ number_of r };

    fn from(refusal: Refusal) -> u16 {
        match refusal {
            Refusal::Tentative => 21,
            Refusal::ShortList => 24,
            Refusal::Overfull => 26,
        }
    }
}

// How many moves a sound directory takes, with so many words of room for them.
fn judge(d: &[u16], v: usize, room: usize) -> Result<usize, Refusal>
    requires { fault v d.now ≡ 0 }
    ensures { told result ≡ judged v d.now room }
{
    if open_chain(d) {
        return Err(Refusal::Tentative);
    }
    let survey = survey_chain(d, v);
    if room < 3 * survey.moves {
        return Err(Refusal::ShortList);
    }
    if survey.over {
        return Err(Refusal::Overfull);
    }
    Ok(survey.moves)
}

// Permanent files packed in their old order; FILE.BAD never moves, and no file passes one. The moves (from, to, length) come into the list from
// its start on, three words each; the rest of it stays.
pub fn squeeze(d: &mut [u16], v: usize, list: &mut [u16]) -> Report
    ensures { Reports result d.new list.new (squeeze v d.old list.old) }
{
    // The fault comes by its number, the one form in which `directory` hands it out.
    let number = fault_of(d, v);
    if number != 0 {
        return Report { number, count: 0 };
    }
    match judge(d, v, list.len()) {
        Err(refusal) => Report {
            number: refusal.into(),
            count: 0,
        },
        Ok(count) => {
            pack_chain(d, v, list);
            Report { number: 0, count }
        }
    }
}
