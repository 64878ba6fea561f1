// A pass over the chain that only reads: how many moves there are, and whether a segment gets more entries than it can hold. With these, refusals 24
// and 26 are a comparison each, before anything is written.
ghost use Rattle.std.specs.Prelude.{◌≡◌};
ghost use Rattle.meaning.specs.Sound.{fault};
ghost use Rattle.tally.specs.Surveyed.{last_count, Surveyable, SurveyedTo, ChainSurveyed};

use crate::tally::{Tally, tally_segment};

// The next free block, the moves so far, and whether a segment so far is overfull. No Option of the moves: they are asked for first, also where
// a segment is overfull.
#[derive(Clone, Copy)]
pub struct Survey {
    pub free: usize,
    pub moves: usize,
    pub over: bool,
}

// An entry for what is left over up to the volume's end, in the last segment.
fn last_count(left: usize, free: usize, v: usize) -> usize
    ensures { result ≡ last_count left free v }
{
    usize::from(left == 1 && free != v)
}

// The survey with one segment more, where so many segments are left, this one among them. One slot is for the marker.
fn survey_segment(segment: &[u16], width: usize, left: usize, v: usize, known: Survey) -> Survey
    requires { Surveyable width segment.now known }
    ensures { SurveyedTo v width left segment.now known result }
{
    let stands = segment[4] as usize;
    let start = Tally {
        free: known.free,
        moves: known.moves,
        entries: 0,
    };
    let t = tally_segment(segment, width, stands, start);
    let entries = t.entries + last_count(left, t.free, v);
    let room = 507 / width - 1;
    Survey {
        free: t.free,
        moves: t.moves,
        over: known.over || room < entries,
    }
}

// All segments of a sound directory, in chain order.
pub fn survey_chain(words: &[u16], v: usize) -> Survey
    requires { fault v words.now ≡ 0 }
    ensures { ChainSurveyed v words.now result }
{
    let width = 7 + (words[3] / 2) as usize;
    let highest = words[2] as usize;
    let mut number: usize = 1;
    let mut so_far = Survey {
        free: 6 + 2 * (words.len() / 512),
        moves: 0,
        over: false,
    };
    for passed in 0..highest {
        let base = 512 * (number - 1);
        so_far = survey_segment(&words[base..base + 512], width, highest - passed, v, so_far);
        number = words[base + 1] as usize;
    }
    so_far
}
