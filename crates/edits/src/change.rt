// Delete, abandon, protect, unprotect, rename and close, of an entry whose place is known: `at` is the place of its first word in the
// directory.
#![tactic(auto, unfolding(meaning::specs::Answers::write))]

ghost use Rattle.std.specs.Prelude.{◌≡◌, [], ◌∷◌, ◌+◌, ◌-◌, ◌≤◌, ◌<◌, length, get_or};
ghost use Rattle.meaning.specs.Kinds.{permanent_status};
ghost use Rattle.meaning.specs.Words.{status_word, name_word, name2_word, extension_word, length_word, channel_word};
ghost use Rattle.meaning.specs.Answers.{put, write};

use meaning::{Name, PERMANENT};

// The entry gets another status, that of an empty entry, a protected or an unprotected one: its status word alone.
pub fn give_status(words: &mut [u16], at: usize, status: u16)
    requires { at < length words.old }
    ensures { words.new ≡ write words.old (put at status_word status ∷ []) }
{
    words[at] = status;
}

// The entry gets another name: its three name words.
pub fn give_name(words: &mut [u16], at: usize, name: Name)
    requires { at + 3 < length words.old }
    ensures { words.new ≡ write words.old
        (put at name_word name.first ∷ put at name2_word name.second ∷ put at extension_word name.extension ∷ []) }
{
    words[at + 1] = name.first;
    words[at + 2] = name.second;
    words[at + 3] = name.extension;
}

// The tentative entry becomes permanent with its final length, and the entry after it, whose place is `next`, grows by the difference.
pub fn make_permanent(words: &mut [u16], at: usize, next: usize, size: u16)
    requires { (at + 7 ≤ next) × (next + 4 < length words.old) × (size ≤ get_or words.old (at + length_word) 0)
        × (get_or words.old (next + length_word) 0 + (get_or words.old (at + length_word) 0 - size) ≤ 65535) }
    ensures { words.new ≡ write words.old
        (put at status_word permanent_status ∷ put at length_word size ∷ put at channel_word 0
        ∷ put next length_word (get_or words.old (next + length_word) 0 + (get_or words.old (at + length_word) 0 - size))
        ∷ []) }
{
    let grown = words[next + 4] + (words[at + 4] - size);
    words[at] = PERMANENT;
    words[at + 4] = size;
    words[at + 5] = 0;
    words[next + 4] = grown;
}
