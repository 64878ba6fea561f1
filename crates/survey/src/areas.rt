// The survey of all areas in one pass: whether one is long enough, whether an eligible one is, and the two longest eligible lengths.
ghost use Rattle.std.specs.Prelude.{◌≡◌, false};
ghost use Rattle.meaning.specs.Words.{kind, slots, upto};
ghost use Rattle.chain.specs.Chained.{Chained};
ghost use Rattle.tidy.specs.Tidied.{Tidyable, Small};
ghost use Rattle.survey.specs.declared.runs.OpenRun.TheVariants.{Calm};
ghost use Rattle.survey.specs.Surveyed.{noted, settled, met, survey_runs, Found, FoundAlong};

use crate::runs::{OpenRun, is_dropped, outline_of, run_after};
use choice::choose::has_long;
use choice::room;
use segment::entries::entries_of;
use segment::entry::Entry;
use segment::kinds;

// What all areas are like, for a least length: whether one is that long (else refusal 11), whether an eligible one is (else
// refusal 12), and the longest and the second longest eligible length, from which a default is reckoned. Two flags and no Option of the lengths: an
// area can be long that isn't eligible, and `noted` in specs/ says each of the four by itself.
#[derive(Clone, Copy)]
pub struct Survey {
    pub long: bool,
    pub eligible: bool,
    pub longest: u16,
    pub second: u16,
}

// What is found of a directory, or of a part of it: its areas, and whether the tidy changes a word.
#[derive(Clone, Copy)]
pub struct Findings {
    pub areas: Survey,
    pub untidy: bool,
}

// The survey with one area more. A length that equals the longest is the second longest from now on: it is another entry's.
fn note(found: Survey, size: u16, eligible: bool, least: usize) -> Survey
    ensures { result ≡ noted least found size eligible }
{
    let enough = least <= size as usize;
    let long = found.long || enough;
    if !eligible {
        return Survey { long, ..found };
    }
    let fit = found.eligible || enough;
    if found.longest <= size {
        return Survey {
            long,
            eligible: fit,
            longest: size,
            second: found.longest,
        };
    }
    Survey {
        long,
        eligible: fit,
        second: found.second.max(size),
        ..found
    }
}

// The survey with a run that ends: an area of the summed length, or none where a zero sum is dropped. `free` and `least` are no struct: the
// one is another in each segment, the other the same in all.
fn settle(found: Survey, run: OpenRun, free: usize, least: usize) -> Survey
    ensures { result ≡ settled least free found run }
{
    match run {
        OpenRun::Calm(_) => found,
        OpenRun::Within(sum, held) => {
            if is_dropped(sum, held) {
                found
            } else {
                note(found, sum, room::is_eligible(sum, held, free), least)
            }
        }
    }
}

// The survey after an entry: an empty one waits in its run, and any other ends the run.
#[tactic(auto, unfolding(crate::specs::Surveyed::met))]
fn meet(found: Survey, run: OpenRun, entry: &Entry<'_>, free: usize, least: usize) -> Survey
    ensures { result ≡ met least free found run (kind entry.now.words.now) }
{
    if kinds::is_empty(entry.status()) {
        found
    } else {
        settle(found, run, free, least)
    }
}

// The survey with one segment more, of which so many slots are free.
fn survey_in(segment: &[u16], width: usize, free: usize, least: usize, given: Survey) -> Survey
    requires { Tidyable width segment.now }
    ensures { result ≡ survey_runs least free given (Calm false) (upto (slots width segment.now)) }
{
    let mut found = given;
    let mut run = OpenRun::Calm(false);
    for entry in entries_of(segment, width) {
        found = meet(found, run, &entry, free, least);
        run = run_after(run, entry.status(), entry.blocks());
    }
    settle(found, run, free, least)
}

// The survey with one segment more, and whether that is untidy. Where a segment has no area there is nothing to judge.
fn survey_segment(
    segment: &[u16],
    width: usize,
    spare: bool,
    least: usize,
    given: Survey,
) -> Findings
    requires { Tidyable width segment.now }
    ensures { Found result least width spare given (upto (slots width segment.now)) }
{
    if !has_long(segment, width, 0) {
        return Findings {
            areas: given,
            untidy: false,
        };
    }
    let seen = outline_of(segment, width);
    let untidy = seen.count != seen.entries;
    let free = room::free_beside(seen.count, width, spare);
    let areas = survey_in(segment, width, free, least, given);
    Findings { areas, untidy }
}

// All areas in chain order, as they are once the directory is tidied, and whether some segment is untidy.
pub fn survey_areas(words: &[u16], least: usize) -> Findings
    requires { Chained words.now × Small words.now }
    ensures { FoundAlong result words.now least }
{
    let width = 7 + (words[3] / 2) as usize;
    let spare = (words[2] as usize) < words.len() / 512;
    let mut number: usize = 1;
    let mut areas = Survey {
        long: false,
        eligible: false,
        longest: 0,
        second: 0,
    };
    let mut untidy = false;
    for _ in 0..words[2] {
        let base = 512 * (number - 1);
        let segment = &words[base..base + 512];
        let found = survey_segment(segment, width, spare, least, areas);
        areas = found.areas;
        untidy = untidy || found.untidy;
        number = segment[1] as usize;
    }
    Findings { areas, untidy }
}
