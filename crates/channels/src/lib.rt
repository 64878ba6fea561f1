// The requests on an open file, by its channel, on a directory known to be sound: abandon and close. Each is refused, in the order of the
// numbers from 8 on, or carried out. A refusal changes no word.
#![tactic(auto)]

ghost use Rattle.std.specs.Prelude.{◌≡◌, ◌≤◌, length};
ghost use Rattle.meaning.specs.Sound.{fault};
ghost use Rattle.meaning.specs.Requests.{good_channel, abandon, close};
ghost use Rattle.meaning.specs.Answers.{Meets, write};
ghost use Rattle.meaning.specs.Told.{told};
ghost use Rattle.segment.specs.Finder.{Inside};
ghost use Rattle.chain.specs.Chained.{Chained};
ghost use Rattle.channels.specs.Closing.{ChannelWord, final_by, OldFile, replacing_at, Opened, closed_on};

use edits::change::{give_status, make_permanent};
use find::find_entry;
use find::found::{granted_with, is_protected, restate_found};
use meaning::{CHANNEL_LIMIT, EMPTY, Granted, Key, Name, Refusal, is_spared};
use segment::entry::Entry;
use segment::finder::Place;

// Job 0 or 2, and a channel up to the limit.
#[tactic(auto, unfolding(meaning::specs::Requests::good_channel, meaning::specs::Requests::channel_limit))]
pub fn is_channel(job: u16, channel: u16) -> bool
    ensures { result ≡ good_channel job channel }
{
    (job == 0 || job == 2) && channel <= CHANNEL_LIMIT
}

// The channel word of a job and a channel.
pub fn channel_word(job: u16, channel: u16) -> Result<u16, Refusal>
    ensures { ChannelWord result job channel }
{
    if !is_channel(job, channel) {
        return Err(Refusal::WrongChannel);
    }
    Ok(job * 256 + channel)
}

pub fn abandon_sound(d: &mut [u16], v: usize, job: u16, channel: u16) -> Result<Granted, Refusal>
    requires { fault v d.old ≡ 0 }
    ensures { Meets (told result) d.new (abandon v d.old job channel) }
{
    let word = channel_word(job, channel)?;
    restate_found(d, v, Key::Open(word), Refusal::NotOpen, EMPTY)
}

// A final length of 0 up to the tentative length, or none.
fn final_of(size: i32, longest: u16) -> Option<u16>
    ensures { result ≡ final_by size longest }
{
    match u16::try_from(size) {
        Ok(blocks) if blocks <= longest => Some(blocks),
        _ => None,
    }
}

// The file that gives way to a new one of this name. A FILE.BAD gives way to none.
pub fn find_old(d: &[u16], name: Name) -> Option<Place>
    requires { Chained d.now }
    ensures { OldFile result d.now name }
{
    if is_spared(name) {
        return None;
    }
    find_entry(d, Key::File(name))
}

// The file that was found, if any, becomes empty.
fn empty_old(d: &mut [u16], old: Option<Place>)
    requires { Inside old 7 (length d.old) }
    ensures { d.new ≡ write d.old (replacing_at old) }
{
    if let Some(place) = old {
        give_status(d, place.at, EMPTY);
    }
}

// The tentative entry at a place becomes a file of this length, unless a protected file would have to give way to it. A file of its name is
// looked for before anything is written.
fn close_at(d: &mut [u16], v: usize, word: u16, place: Place, size: u16) -> Result<Granted, Refusal>
    requires { (fault v d.old ≡ 0) × Opened d.old word place × (size ≤ place.length) }
    ensures { Meets (told result) d.new (closed_on d.old word size) }
{
    let width = 7 + (d[3] / 2) as usize;
    let next = place.at + width;
    let name = Entry::new(&d[place.at..next]).name();
    let old = find_old(d, name);
    if is_protected(old) {
        return Err(Refusal::ProtectedFile);
    }
    make_permanent(d, place.at, next, size);
    empty_old(d, old);
    Ok(granted_with(place, size))
}

pub fn close_sound(
    d: &mut [u16],
    v: usize,
    job: u16,
    channel: u16,
    size: i32,
) -> Result<Granted, Refusal>
    requires { fault v d.old ≡ 0 }
    ensures { Meets (told result) d.new (close v d.old job channel size) }
{
    let word = channel_word(job, channel)?;
    let place = find_entry(d, Key::Open(word)).ok_or(Refusal::NotOpen)?;
    let blocks = final_of(size, place.length).ok_or(Refusal::WrongLength)?;
    close_at(d, v, word, place, blocks)
}
