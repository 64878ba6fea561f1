// An entry, or any slot, by its words; and what its words say. As every slot has seven words or more, none of them is read that isn't there.
ghost use Rattle.std.specs.Prelude.{◌≡◌, ◌≤◌, length, slice_index};
ghost use Rattle.meaning.specs.Words.{blocks, date_of, name_of, channel_of};

use meaning::Name;

#[derive(Clone, Copy)]
pub struct Entry<'a> {
    pub words: &'a [u16],
    ghost whole: { 7 ≤ length words.now },
}

impl<'a> Entry<'a> {
    pub fn new(words: &'a [u16]) -> Self
        requires { 7 ≤ length words.now }
        ensures { result.words ≡ words.entry }
    {
        Entry { words }
    }

    pub fn status(&self) -> u16
        ensures { result ≡ slice_index self.now.words.now 0 }
    {
        self.words[0]
    }

    pub fn name(&self) -> Name
        ensures { result ≡ name_of self.now.words.now }
    {
        Name {
            first: self.words[1],
            second: self.words[2],
            extension: self.words[3],
        }
    }

    pub fn blocks(&self) -> u16
        ensures { result ≡ blocks self.now.words.now }
    {
        self.words[4]
    }

    // The word that holds the channel of a tentative entry.
    pub fn channel(&self) -> u16
        ensures { result ≡ channel_of self.now.words.now }
    {
        self.words[5]
    }

    pub fn date(&self) -> u16
        ensures { result ≡ date_of self.now.words.now }
    {
        self.words[6]
    }
}
