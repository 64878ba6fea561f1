// Room for the new entry: the slots that an area costs, and those that its segment has free. Where a segment is not in use yet the
// chosen one can be split, so that there is room for any area, and nothing has to be counted.
ghost use Rattle.std.specs.Prelude.{◌≡◌, ◌≤◌, length};
ghost use Rattle.meaning.specs.Words.{slots, upto};
ghost use Rattle.choice.specs.Room.{Cost, eligible_by, FreeOf, Free};

use segment::count::count_entries;

// An insertion directly after a tentative entry first gives that entry an empty one of its own.
#[tactic(auto, unfolding(meaning::specs::Enter::cost_after))]
pub fn cost_after(tentative: bool) -> usize
    ensures { Cost result tentative }
{
    if tentative { 2 } else { 1 }
}

// Whether an area of this length is eligible. `tentative`: a tentative entry stands directly before it; `free`: so many slots are
// free in its segment.
#[tactic(auto, unfolding(crate::specs::Room::eligible_by))]
pub fn is_eligible(size: u16, tentative: bool, free: usize) -> bool
    ensures { result ≡ eligible_by free tentative size }
{
    1 <= size && cost_after(tentative) <= free
}

// The slots that are free beside so many entries. The marker takes one slot.
pub fn free_of(count: usize, width: usize) -> usize
    requires { (7 ≤ width) × (width ≤ 23) }
    ensures { FreeOf result count width }
{
    (507 / width - 1).saturating_sub(count)
}

// The free slots of a segment, where `spare` says whether a segment is not in use yet. No insertion costs more than 2.
pub fn free_in(segment: &[u16], width: usize, spare: bool) -> usize
    requires { (length segment.now ≡ 512) × (7 ≤ width) × (width ≤ 23) }
    ensures { Free result width spare (length (upto (slots width segment.now))) }
{
    if spare {
        2
    } else {
        free_of(count_entries(segment, width), width)
    }
}

// The same where the entries are counted. One function for both would ask for a count also where none is needed.
pub fn free_beside(count: usize, width: usize, spare: bool) -> usize
    requires { (7 ≤ width) × (width ≤ 23) }
    ensures { Free result width spare count }
{
    if spare { 2 } else { free_of(count, width) }
}
