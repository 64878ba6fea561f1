// Enter's choice among the areas of a tidied directory: the first eligible one that is long enough.
ghost use Rattle.std.specs.Prelude.{◌≡◌, ◌≤◌, length};
ghost use Rattle.meaning.specs.Words.{kind, blocks, slots, upto};
ghost use Rattle.meaning.specs.Sound.{any};
ghost use Rattle.chain.specs.Chained.{Chained};
ghost use Rattle.choice.specs.Choice.{Fitted};
ghost use Rattle.choice.specs.Room.{room_for, room_by};
ghost use Rattle.choice.specs.Judged.{fitting, long_entry, FitIn};

use crate::room;
use segment::entries::entries_of;
use segment::entry::Entry;
use segment::kinds;

// Where an area stands: its segment, how many entries of the segment stand before it, and the place of its first word in the
// directory; with its first block, its length, and the slots that an insertion before it costs.
#[derive(Clone, Copy)]
pub struct AreaPlace {
    pub seg: usize,
    pub before: usize,
    pub at: usize,
    pub first: usize,
    pub size: u16,
    pub cost: usize,
}

// Whether an entry is an eligible area of at least this length.
#[tactic(auto, unfolding(crate::specs::Judged::fitting))]
fn is_fit(entry: &Entry<'_>, tentative: bool, free: usize, least: usize) -> bool
    ensures { result ≡ fitting least free tentative (kind entry.now.words.now) (blocks entry.now.words.now) }
{
    kinds::is_empty(entry.status())
        && room::is_eligible(entry.blocks(), tentative, free)
        && least <= entry.blocks() as usize
}

// The first fit in the segment of this number. Words and blocks are counted along, so that no count is multiplied by a width.
fn fit_in(
    segment: &[u16],
    width: usize,
    number: usize,
    free: usize,
    least: usize,
) -> Option<AreaPlace>
    requires { (length segment.now ≡ 512) × (7 ≤ width) × (width ≤ 23) × (1 ≤ number) × (number ≤ 31) }
    ensures { FitIn result segment.now width number (room_for free) least }
{
    let mut at: usize = 512 * (number - 1) + 5;
    let mut first = segment[4] as usize;
    let mut tentative = false;
    for (before, entry) in entries_of(segment, width).enumerate() {
        if is_fit(&entry, tentative, free, least) {
            return Some(AreaPlace {
                seg: number,
                before,
                at,
                first,
                size: entry.blocks(),
                cost: room::cost_after(tentative),
            });
        }
        at += width;
        first += entry.blocks() as usize;
        tentative = kinds::is_tentative(entry.status());
    }
    None
}

// Whether an entry is an area of at least this length, eligible or not.
#[tactic(auto, unfolding(crate::specs::Judged::long))]
fn is_long(entry: &Entry<'_>, least: usize) -> bool
    ensures { result ≡ long_entry least entry.now.words.now }
{
    kinds::is_empty(entry.status()) && least <= entry.blocks() as usize
}

// Whether a segment has an area of at least this length, eligible or not. Most segments of a full directory have none, and then
// nothing is counted.
pub fn has_long(segment: &[u16], width: usize, least: usize) -> bool
    requires { (length segment.now ≡ 512) × (7 ≤ width) × (width ≤ 23) }
    ensures { result ≡ any (long_entry least) (upto (slots width segment.now)) }
{
    entries_of(segment, width).any(|entry| is_long(&entry, least))
}

// The first fit in the segment of this number, where `spare` says whether a segment is not in use yet.
fn fit_at(
    segment: &[u16],
    width: usize,
    number: usize,
    spare: bool,
    least: usize,
) -> Option<AreaPlace>
    requires { (length segment.now ≡ 512) × (7 ≤ width) × (width ≤ 23) × (1 ≤ number) × (number ≤ 31) }
    ensures { FitIn result segment.now width number
        (room_by width spare (length (upto (slots width segment.now)))) least }
{
    if !has_long(segment, width, least) {
        return None;
    }
    let free = room::free_in(segment, width, spare);
    fit_in(segment, width, number, free, least)
}

// The first eligible area in chain order that is at least this long.
pub fn first_fit(words: &[u16], least: usize) -> Option<AreaPlace>
    requires { Chained words.now }
    ensures { Fitted result words.now least }
{
    let width = 7 + (words[3] / 2) as usize;
    let spare = (words[2] as usize) < words.len() / 512;
    let mut number: usize = 1;
    for _ in 0..words[2] {
        let base = 512 * (number - 1);
        let segment = &words[base..base + 512];
        if let Some(place) = fit_at(segment, width, number, spare, least) {
            return Some(place);
        }
        number = segment[1] as usize;
    }
    None
}
