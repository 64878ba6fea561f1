// What the tool writes: the segments of the chain mended, one after the other. Throughout, `width` is how many words a slot has, 7 + E.
#![tactic(auto)]

ghost use Rattle.std.specs.Prelude.{◌≡◌, ◌+◌, ◌≤◌, drop};
ghost use Rattle.repaired.specs.Tool.{next_first};

pub mod anew;
pub mod slots;

// How far the entries are laid: the block after the last of them, and the first blocks that are left for files, in the order in which they are
// dealt out.
#[derive(Clone, Copy)]
pub struct LaidTo<'a> {
    pub block: usize,
    pub firsts: &'a [usize],
}

impl<'a> LaidTo<'a> {
    // Where the next file begins, but not beyond V; or V where no file follows.
    pub fn next_first(&self, v: usize) -> usize
        ensures { result ≡ next_first v self.now.firsts.now }
    {
        match self.firsts.first() {
            Some(first) => v.min(*first),
            None => v,
        }
    }

    // The same after a file of so many blocks, which takes the next first block.
    pub fn past_file(self, blocks: u16) -> Self
        requires { self.block ≤ 16777216 }
        ensures block { result.block ≡ self.entry.block + blocks }
        ensures firsts { result.firsts.now ≡ drop 1 self.entry.firsts.now }
    {
        let firsts = match self.firsts.split_first() {
            Some((_, others)) => others,
            None => self.firsts,
        };
        LaidTo {
            block: self.block + blocks as usize,
            firsts,
        }
    }
}
