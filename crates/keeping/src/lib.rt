// What test and tool of a repair read: the files that a damaged directory is to keep, listed in a table; their first blocks, sorted; and whether
// two lists hold the same files. Nothing here writes a word of a directory.
#![tactic(auto)]

ghost use Rattle.std.specs.Prelude.{◌≡◌, take, drop};
ghost use Rattle.keeping.specs.Tables.{Within};

pub mod files;
pub mod firsts;
pub mod matching;

use segment::entry::Entry;

// A file that a directory lists: its first block, and where its entry's first word stands in the directory. What else a file keeps is read there.
// Each fits 32 bits, so that a table of files takes no more room than one of single numbers.
#[derive(Clone, Copy)]
pub struct File {
    pub first: u32,
    pub at: u32,
}

impl File {
    // The seven words of its entry that have a meaning.
    pub fn entry<'a>(&self, d: &'a [u16]) -> Entry<'a>
        requires { Within d.now self.now }
        ensures { result.words.now ≡ take 7 (drop self.now.at d.now) }
    {
        let at = self.at as usize;
        Entry::new(&d[at..at + 7])
    }
}
