// How many entries a segment has.
ghost use Rattle.std.specs.Prelude.{◌≡◌, ◌≤◌, length};
ghost use Rattle.segment.specs.Count.{Counted};

use crate::entries::entries_of;

// How many entries stand before the marker.
pub fn count_entries(segment: &[u16], width: usize) -> usize
    requires { (length segment.now ≡ 512) × (7 ≤ width) × (width ≤ 23) }
    ensures { Counted result width segment.now }
{
    entries_of(segment, width).count()
}
