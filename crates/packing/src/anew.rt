// The segments written anew and their moves listed, one after the other in chain order. `left` is how many segments are left, the one at hand included.
ghost use Rattle.std.specs.Prelude.{◌≡◌, false, ◌++◌, ◌+◌, ◌≤◌, length, drop};
ghost use Rattle.meaning.specs.Words.{capacity};
ghost use Rattle.meaning.specs.Sound.{fault};
ghost use Rattle.segment.specs.Written.{Written};
ghost use Rattle.squeezed.specs.Squeeze.{moves, new_parts, overfull, squeezed, move_words};
ghost use Rattle.packing.specs.Anew.{last_block, moves_in, Packable, PackedTo};

use crate::Place;
use crate::entries::{pass_entries, put_left};
use meaning::END;
use segment::copying::put_words;

// The block up to which what is left over stands last in a segment: the volume's end in the last one, and in any other nothing.
fn end_of(left: usize, free: usize, v: usize) -> usize
    ensures { result ≡ last_block left free v }
{
    if left == 1 { v } else { free }
}

// One segment, whose files are packed from the next free block on, and its moves, from `listed` on in the list. The answer tells where the next
// move goes, and the next free block.
fn pack_segment(
    segment: &mut [u16],
    width: usize,
    left: usize,
    free: usize,
    v: usize,
    list: &mut [u16],
    listed: usize,
) -> Place
    requires { Packable v width left free segment.old
        × (listed + length (moves_in width free segment.old) ≤ length list.old) }
    ensures { PackedTo v width left free segment.old segment.new result.free
        × Written list.old listed (moves_in width free segment.old) list.new result.listed }
{
    let stands = segment[4] as usize;
    let mut out = [0u16; 512];
    let at = put_words(&segment[..5], &mut out, 0);
    out[4] = free as u16;
    let start = Place { at, listed, free };
    let place = pass_entries(segment, width, stands, start, &mut out, list);
    let last = end_of(left, place.free, v);
    let end = put_left(&mut out, place.at, width, place.free, last);
    out[end] = END;
    segment.copy_from_slice(&out);
    place
}

// All segments in use, and their moves, from the list's start on.
pub fn pack_chain(words: &mut [u16], v: usize, list: &mut [u16])
    requires { (fault v words.old ≡ 0) × (overfull (capacity words.old) (new_parts v words.old) ≡ false)
        × (length (move_words (moves words.old)) ≤ length list.old) }
    ensures { (words.new ≡ squeezed v words.old)
        × (list.new
        ≡ move_words (moves words.old) ++ drop (length (move_words (moves words.old))) list.old) }
{
    let width = 7 + (words[3] / 2) as usize;
    let highest = words[2] as usize;
    let mut number: usize = 1;
    let mut free: usize = 6 + 2 * (words.len() / 512);
    let mut listed: usize = 0;
    for passed in 0..highest {
        let start = 512 * (number - 1);
        number = words[start + 1] as usize;
        let segment = &mut words[start..start + 512];
        let place = pack_segment(segment, width, highest - passed, free, v, list, listed);
        free = place.free;
        listed = place.listed;
    }
}
