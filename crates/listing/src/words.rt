// The directory's words, from the bytes of the listing's file.
ghost use Rattle.std.specs.Prelude.{◌+◌, ◌*◌, ◌≤◌, length, drop};
ghost use Rattle.meaning.specs.Listing.{words_in};
ghost use Rattle.lines.specs.Wrote.{Wrote};

use crate::head;

// The words from the byte `first` on, low byte first, into the first of the lent words. Answers how many they are.
pub(crate) fn load_words(file: &[u8], first: usize, words: &mut [u16]) -> usize
    requires { (first ≤ length file.now) × (length file.now ≤ first + 2 * length words.old) }
    ensures { Wrote words.old 0 (words_in (drop first file.now)) words.new result }
{
    let count = (file.len() - first) / 2;
    for i in 0..count {
        words[i] = head::word_at(file, first + 2 * i);
    }
    count
}
