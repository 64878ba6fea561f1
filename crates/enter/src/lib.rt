// Enter on a sound directory. Whether there is room is found on the words as they are, so that a refusal has changed no word; only
// then is the directory tidied and the new entry put into its area, all in place.
#![tactic(auto)]

ghost use Rattle.std.specs.Prelude.{◌≡◌};
ghost use Rattle.meaning.specs.Words.{chain};
ghost use Rattle.meaning.specs.Sound.{fault};
ghost use Rattle.meaning.specs.Enter.{tidied};
ghost use Rattle.meaning.specs.Answers.{Meets};
ghost use Rattle.meaning.specs.Told.{told};
ghost use Rattle.choice.specs.Asks.{size_by};
ghost use Rattle.enter.specs.Entering.{any_untidy, Fits, placed_in, entering};

use choice::choose::first_fit;
use choice::size::{Asked, at_least, wanted_of};
use insert::place::{Spot, enter_area};
use meaning::{Granted, Name, Refusal};
use render::Tentative;
use survey::areas::survey_areas;
use tidy::tidy::tidy_all;

// The directory tidied. Where no segment is untidy, as most often, nothing is walked for it. A function of its own, so that an `if` whose ways join
// stands before no other call.
fn tidy_if(d: &mut [u16], v: usize, untidy: bool)
    requires { (fault v d.old ≡ 0) × (untidy ≡ any_untidy d.old) }
    ensures { d.new ≡ tidied d.old (chain d.old) }
{
    if untidy {
        tidy_all(d);
    }
}

// The directory tidied, and the new entry put into the first area that is long enough. It is known that there is one.
fn place_file(d: &mut [u16], v: usize, untidy: bool, new: Tentative) -> Result<Granted, Refusal>
    requires { (fault v d.old ≡ 0) × (untidy ≡ any_untidy d.old) × Fits d.old new.length }
    ensures { Meets (told result) d.new (placed_in d.old new.name new.length new.channel new.date) }
{
    tidy_if(d, v, untidy);
    // This is never an error: that `Fits` rules it out is proved.
    let area = first_fit(d, new.length as usize).ok_or(Refusal::NoRoom)?;
    let spot = Spot {
        seg: area.seg,
        before: area.before,
        word: area.at - 512 * (area.seg - 1),
        cost: area.cost,
    };
    let position = enter_area(d, spot, new);
    Ok(Granted {
        first: area.first as u16,
        length: new.length,
        date: new.date,
        position,
    })
}

// Enter, once nothing but want of room can refuse it.
pub fn enter_file(
    d: &mut [u16],
    v: usize,
    name: Name,
    asked: Asked,
    channel: u16,
    date: u16,
) -> Result<Granted, Refusal>
    requires { fault v d.old ≡ 0 }
    ensures { Meets (told result) d.new (entering d.old name (size_by asked) channel date) }
{
    let found = survey_areas(d, at_least(asked));
    let areas = found.areas;
    if !areas.long {
        return Err(Refusal::NoLongArea);
    }
    if !areas.eligible {
        return Err(Refusal::NoRoom);
    }
    let length = wanted_of(asked, areas.longest, areas.second);
    let new = Tentative {
        name,
        length,
        channel,
        date,
    };
    place_file(d, v, found.untidy, new)
}
