// A move, three words, written into the lent list.
ghost use Rattle.std.specs.Prelude.{◌+◌, ◌≤◌, length};
ghost use Rattle.segment.specs.Written.{Written};
ghost use Rattle.packing.specs.Packs.{one_move};

use segment::copying::put_words;

// One move, where there are blocks that change place. The answer is the place after it.
pub fn put_move(list: &mut [u16], at: usize, stands: usize, place: usize, blocks: u16) -> usize
    requires { (place ≤ stands) × (stands ≤ 65535) × (at + length (one_move stands place blocks) ≤ length list.old) }
    ensures { Written list.old at (one_move stands place blocks) list.new result }
{
    if stands == place || blocks == 0 {
        return at;
    }
    put_words(&[stands as u16, place as u16, blocks], list, at)
}
