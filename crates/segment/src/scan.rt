// Rule 4 of one segment, and the sum of its lengths that rule 5 asks for, in one walk over the slots.
ghost use Rattle.std.specs.Prelude.{◌≡◌, ◌≤◌, length};
ghost use Rattle.meaning.specs.Kinds.{kind_of};
ghost use Rattle.meaning.specs.Sound.{long_name};
ghost use Rattle.segment.specs.Scan.{Scanned};
ghost use Rattle.segment.specs.Steps.{named_step, step_by, slot_step};

use crate::entry::Entry;
use crate::kinds;
use meaning::Name;

// What one slot says: a fault, the marker, or an entry, with its length and whether it is tentative.
#[derive(Clone, Copy)]
pub enum Step {
    Bad,
    Marker,
    Next(u16, bool),
}

// What the slots of a segment say that keeps rule 4: how many entries stand before the marker, and the sum of their lengths.
#[derive(Clone, Copy)]
pub struct Sum {
    pub count: usize,
    pub blocks: usize,
}

// Whether one of the three words is above 63,999, the largest that spells three characters.
pub fn long_name(name: Name) -> bool
    ensures { result ≡ long_name name }
{
    63999 < name.first || 63999 < name.second || 63999 < name.extension
}

// What a permanent or a tentative entry says: its name must be one, and no empty entry may be due in its place.
fn named_step(name: Name, blocks: u16, owed: bool, tentative: bool) -> Step
    ensures { result ≡ named_step owed (long_name name) blocks tentative }
{
    if owed || long_name(name) {
        return Step::Bad;
    }
    Step::Next(blocks, tentative)
}

// What a slot with these words says. `owed`: the slot before it is a tentative entry, so that an empty one is due here. Looking
// back, and not ahead from the tentative entry, no slot past the last is ever read. Most slots are files, and so these are asked for first.
pub fn step_by(status: u16, name: Name, blocks: u16, owed: bool) -> Step
    ensures { result ≡ step_by (kind_of status) owed (long_name name) blocks }
{
    if kinds::is_permanent(status) {
        return named_step(name, blocks, owed, false);
    }
    if kinds::is_empty(status) {
        return Step::Next(blocks, false);
    }
    if kinds::is_tentative(status) {
        return named_step(name, blocks, owed, true);
    }
    if owed {
        return Step::Bad;
    }
    if kinds::is_marker(status) {
        return Step::Marker;
    }
    Step::Bad
}

// What a slot says.
pub fn slot_step(slot: &Entry<'_>, owed: bool) -> Step
    ensures { result ≡ slot_step owed slot.now.words.now }
{
    step_by(slot.status(), slot.name(), slot.blocks(), owed)
}

// All slots of a segment, up to the marker; none where they break rule 4. The sum is a usize, so that it is exact and never reduced by 65,536.
#[tactic(auto, using(crate::proofs::Scanning::started))]
pub fn scan_slots(segment: &[u16], width: usize) -> Option<Sum>
    requires { (length segment.now ≡ 512) × (7 ≤ width) × (width ≤ 23) }
    ensures { Scanned result width segment.now }
{
    let mut count: usize = 0;
    let mut blocks: usize = 0;
    let mut owed = false;
    for words in segment[5..].chunks_exact(width) {
        match slot_step(&Entry::new(words), owed) {
            Step::Bad => return None,
            Step::Marker => return Some(Sum { count, blocks }),
            Step::Next(length, tentative) => {
                count += 1;
                blocks += length as usize;
                owed = tentative;
            }
        }
    }
    None
}
