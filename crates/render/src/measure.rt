// The entries of a segment: how many a split keeps, and the blocks of the first of them.
ghost use Rattle.std.specs.Prelude.{◌≡◌, ◌+◌, ◌*◌, ◌≤◌, length, drop};
ghost use Rattle.meaning.specs.Words.{slots, upto, chunks, total};
ghost use Rattle.segment.specs.Count.{Counted};
ghost use Rattle.render.specs.Halves.{KeptOf};

use segment::entry::Entry;
use segment::kinds;

// How many entries a split keeps: half of them, and one more if the last of these is tentative, so that its area stays with it.
pub fn count_kept(segment: &[u16], width: usize, count: usize) -> usize
    requires { (length segment.now ≡ 512) × (7 ≤ width) × Counted count width segment.now }
    ensures { KeptOf result (upto (slots width segment.now)) }
{
    let half = count / 2;
    if 0 < half && kinds::is_tentative(segment[5 + (half - 1) * width]) {
        half + 1
    } else {
        half
    }
}

// The blocks of the first entries of a segment. The sum is a usize, so that it is exact.
pub fn sum_lengths(segment: &[u16], width: usize, count: usize) -> usize
    requires { (7 ≤ width) × (length segment.now ≡ 512) × (5 + count * width ≤ 512) }
    ensures { result ≡ total (chunks count width (drop 5 segment.now)) }
{
    let mut sum: usize = 0;
    for words in segment[5..5 + count * width].chunks_exact(width) {
        sum += Entry::new(words).blocks() as usize;
    }
    sum
}
