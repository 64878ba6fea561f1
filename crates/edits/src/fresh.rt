// A fresh start: every word is cleared, and then segment 1 gets its header, one area and the marker.
ghost use Rattle.std.specs.Prelude.{◌≡◌, ◌≤◌, length, replicate};
ghost use Rattle.walks.specs.Heads.{Sized};
ghost use Rattle.meaning.specs.Requests.{fresh_words};

use meaning::{EMPTY, END};

fn clear(words: &mut [u16])
    ensures { words.new ≡ replicate (length words.old) 0 }
{
    words.fill(0);
}

pub fn start_fresh(words: &mut [u16], v: usize, extra: usize)
    requires { Sized v words.old × (extra ≤ 16) }
    ensures { words.new ≡ fresh_words v words.old extra }
{
    let n = words.len() / 512;
    let first = 6 + 2 * n;
    clear(words);
    words[0] = n as u16;
    words[2] = 1;
    words[3] = (2 * extra) as u16;
    words[4] = first as u16;
    words[5] = EMPTY;
    words[9] = (v - first) as u16;
    words[12 + extra] = END;
}
