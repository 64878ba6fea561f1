// A segment's words made anew: header, entries, marker, and zeros after it. The entries are given as their words, one after the
// other, so that a half of a segment is rendered as a whole one is. Throughout, `width` is how many words a slot has, 7 + E, and `word`
// the place in the segment where a slot begins.
#![tactic(auto)]

pub mod measure;

ghost use Rattle.std.specs.Prelude.{◌≡◌, ◌+◌, ◌≤◌, ◌<◌, length};
ghost use Rattle.segment.specs.Written.{Written};
ghost use Rattle.render.specs.Anew.{new_entry, gap_words, inserted_words, rendered_words, Inserting, inserted_into, Insertable};

use meaning::{EMPTY, END, Name, TENTATIVE};
use segment::copying::{clear_from, move_up, put_words};

// The words of the new entry: name, length in blocks, channel word and date.
#[derive(Clone, Copy)]
pub struct Tentative {
    pub name: Name,
    pub length: u16,
    pub channel: u16,
    pub date: u16,
}

// The new entry as words. A slot has at most 23, and the extra words of a new entry are 0.
pub fn entry_words(new: Tentative) -> [u16; 23]
    ensures { result ≡ new_entry 23 new }
{
    let mut words = [0u16; 23];
    words[0] = TENTATIVE;
    words[1] = new.name.first;
    words[2] = new.name.second;
    words[3] = new.name.extension;
    words[4] = new.length;
    words[5] = new.channel;
    words[6] = new.date;
    words
}

// At cost 2 a tentative entry stands directly before the area, and an empty entry of length 0 has to come between it and the new one.
fn put_gap(out: &mut [u16], place: usize, width: usize, cost: usize) -> usize
    requires { (7 ≤ width) × (width ≤ 23) × (place + length (gap_words width cost) ≤ length out.old) }
    ensures { Written out.old place (gap_words width cost) out.new result }
{
    if cost == 2 {
        let mut gap = [0u16; 23];
        gap[0] = EMPTY;
        return put_words(&gap[..width], out, place);
    }
    place
}

// The words of entries, with the new entry before the area that begins at this word of them. The area keeps its words and loses the
// new entry's length.
fn put_inserted(
    words: &[u16],
    word: usize,
    cost: usize,
    new: &[u16],
    out: &mut [u16],
    place: usize,
) -> usize
    requires { Inserting words.now word cost new.now
        × (place + length (inserted_words word cost new.now words.now) ≤ length out.old) }
    ensures { Written out.old place (inserted_words word cost new.now words.now)
        out.new result }
{
    let gap = put_words(&words[..word], out, place);
    let start = put_gap(out, gap, new.len(), cost);
    let area = put_words(new, out, start);
    let next = put_words(&words[word..], out, area);
    out[area + 4] = words[word + 4] - new[4];
    next
}

// A segment with these entries.
pub fn plain_segment(header: &[u16; 5], words: &[u16]) -> [u16; 512]
    requires { 5 + length words.now < 512 }
    ensures { result ≡ rendered_words header.now words.now }
{
    let mut out = [0u16; 512];
    let start = put_words(header, &mut out, 0);
    let next = put_words(words, &mut out, start);
    out[next] = END;
    out
}

// A segment with these entries and the new one.
pub fn inserted_segment(
    header: &[u16; 5],
    words: &[u16],
    word: usize,
    cost: usize,
    new: &[u16],
) -> [u16; 512]
    requires { Inserting words.now word cost new.now × (5 + length (inserted_words word cost new.now words.now) < 512) }
    ensures { result ≡ rendered_words header.now (inserted_words word cost new.now words.now) }
{
    let mut out = [0u16; 512];
    let start = put_words(header, &mut out, 0);
    let next = put_inserted(words, word, cost, new, &mut out, start);
    out[next] = END;
    out
}

// The new entry put into a segment, in place, before the area that begins at this word; the segment's entries end at `stop`. From the
// area on they move up by the slots that it costs, and what follows the marker becomes 0.
pub fn insert_words(segment: &mut [u16], stop: usize, word: usize, cost: usize, new: &[u16])
    requires { Insertable segment.old stop word cost new.now }
    ensures { segment.new ≡ inserted_into segment.old stop word cost new.now }
{
    let width = new.len();
    let grown = cost * width;
    let end = stop + grown;
    let size = segment[word + 4];
    move_up(segment, word, stop, grown);
    let start = put_gap(segment, word, width, cost);
    let area = put_words(new, segment, start);
    segment[area + 4] = size - new[4];
    segment[end] = END;
    clear_from(segment, end + 1);
}
