// The first entry that is looked for, over the whole chain.
#![tactic(auto)]

pub mod found;

ghost use Rattle.chain.specs.Chained.{Chained};
ghost use Rattle.find.specs.Find.{FoundEntry};

use meaning::Key;
use segment::finder;
use segment::finder::Place;

// The segments are asked one after the other, in chain order, each as a part of the directory.
pub fn find_entry(d: &[u16], key: Key) -> Option<Place>
    requires { Chained d.now }
    ensures { FoundEntry result d.now key }
{
    let width = 7 + (d[3] / 2) as usize;
    let mut segment: usize = 1;
    for _ in 0..d[2] {
        let base = 512 * (segment - 1);
        let first = d[base + 4] as usize;
        let found = finder::find_in(&d[base..base + 512], width, segment, base, first, key);
        if let Some(place) = found {
            return Some(place);
        }
        segment = d[base + 1] as usize;
    }
    None
}
