// Words copied into a slice, moved up within it, and made 0.
ghost use Rattle.std.specs.Prelude.{◌≡◌, ◌+◌, ◌-◌, ◌≤◌, length, take, drop, replicate};
ghost use Rattle.std.proofs.Math.Seq.{paste};
ghost use Rattle.segment.specs.Written.{Written};

// The words of `source`, copied into `target` from `place` on.
pub fn copy_words(source: &[u16], target: &mut [u16], place: usize)
    requires { place + length source.now ≤ length target.old }
    ensures { target.new ≡ paste target.old place source.now (length source.now) }
{
    let end = place + source.len();
    target[place..end].copy_from_slice(source);
}

// The same, with the place after the words as the answer: what a run of writes is made of.
pub fn put_words(source: &[u16], target: &mut [u16], place: usize) -> usize
    requires { place + length source.now ≤ length target.old }
    ensures { Written target.old place source.now target.new result }
{
    copy_words(source, target, place);
    place + source.len()
}

// The words from `start` to `end`, moved up by so many places; those that they leave free stay as they were.
pub fn move_up(words: &mut [u16], start: usize, end: usize, by: usize)
    requires { (start ≤ end) × (end + by ≤ length words.old) }
    ensures { Written words.old (start + by) (take (end - start) (drop start words.old)) words.new
        (end + by) }
{
    words.copy_within(start..end, start + by);
}

// The words from `start` on, made 0.
pub fn clear_from(words: &mut [u16], start: usize)
    requires { start ≤ length words.old }
    ensures { Written words.old start (replicate (length words.old - start) 0)
        words.new (length words.old) }
{
    words[start..].fill(0);
}
