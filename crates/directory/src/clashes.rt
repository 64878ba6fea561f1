// Rule 6 in linear time: to compare all pairs of entries would be 2.4 million comparisons on a full volume. So one pass lists the
// places of the entries that have a key, in chain order, and a second one takes that list from its end and puts each entry into a
// bucket by its key: entries that clash meet in one bucket. (Only names chosen to share a bucket make it slow.) Throughout, `width`
// is the words of a slot, and a place that of an entry's first word in the directory. The tables are arrays of the largest size, with a
// count beside them while they fill, since the project takes no memory from a heap.
ghost use Rattle.std.specs.Prelude.{◌≡◌, ◌&&◌, true, ◌+◌, ◌≤◌, ◌<◌, length};
ghost use Rattle.std.proofs.Math.Option.{some};
ghost use Rattle.meaning.specs.Words.{slot_words, slots, upto};
ghost use Rattle.meaning.specs.Keys.{key_of, holds, once};
ghost use Rattle.meaning.specs.Sound.{any, clashes, bad6};
ghost use Rattle.chain.specs.Chained.{Chained};
ghost use Rattle.directory.specs.Candidates.{has_key, places_of, Grown, AllListed};
ghost use Rattle.directory.specs.Buckets.{numbered, seen, Places, hashed, bucket_of, latest, Threaded};

use meaning::{Key, is_spared};
use segment::entries::entries_of;
use segment::entry::Entry;
use segment::finder::slot_keyed;
use segment::kinds;

// A number for each slot of 31 segments with 72 slots each, and number 0.
const ROOM: usize = 2233;

// Nearly four for each of the 2,201 entries that a directory can hold: to meet another entry costs as much as a dozen that meet none.
const BUCKETS: usize = 8192;

// Whether an entry has a key. All others can't clash, and would only fill the buckets.
fn has_key(entry: &Entry<'_>) -> bool
    ensures { result ≡ has_key entry.now.words.now }
{
    kinds::is_permanent(entry.status()) || kinds::is_tentative(entry.status())
}

// The key of an entry that has one: it is permanent or tentative.
fn key_of(entry: &Entry<'_>) -> Key
    requires { has_key entry.now.words.now ≡ true }
    ensures { key_of entry.now.words.now ≡ some result }
{
    if kinds::is_tentative(entry.status()) {
        Key::Open(entry.channel())
    } else {
        Key::File(entry.name())
    }
}

// The entries of a segment that begins at word `base` of the directory, listed after `listed` others; the answer is how many are listed then.
fn list_segment(
    segment: &[u16],
    base: usize,
    width: usize,
    places: &mut [u16; ROOM],
    listed: usize,
) -> usize
    requires { (length segment.now ≡ 512) × (base ≤ 65024) × (7 ≤ width)
        × (length places.old ≡ 2233) × (listed ≤ 2160) }
    ensures { Grown places.old listed places.new result 72
        (places_of width (base + 5) (upto (slots width segment.now))) }
{
    let mut place: usize = base + 5;
    let mut count: usize = listed;
    for entry in entries_of(segment, width) {
        if has_key(&entry) {
            places[count] = place as u16;
            count += 1;
        }
        place += width;
    }
    count
}

// The entries of the whole chain, listed segment by segment.
fn list_chain(d: &[u16], width: usize, places: &mut [u16; ROOM]) -> usize
    requires { Chained d.now × (width ≡ slot_words d.now) × (length places.old ≡ 2233) }
    ensures { AllListed d.now places.new result }
{
    let mut number: usize = 1;
    let mut count: usize = 0;
    for _ in 0..d[2] {
        let base = 512 * (number - 1);
        let words = &d[base..base + 512];
        count = list_segment(words, base, width, places, count);
        number = words[1] as usize;
    }
    count
}

// The bucket of three words. The factors are large, so that each word reaches every bit that is taken, and the sum still fits in 64
// bits; they were found by trial, so that names that count up in digits or letters, in any word, meet less often than by chance.
// Another hash is a change of this line and of its twin in specs/: no proof asks what it is.
fn hash(first: u16, second: u16, third: u16) -> usize
    ensures { (result ≡ hashed first second third) × (result < 8192) }
{
    (first as usize * 34011982842585
        + second as usize * 20789424455995
        + third as usize * 30500104378819)
        / 4294967296
        % BUCKETS
}

// The bucket of a key. A file and a channel word that meet in one cost a comparison and no more.
fn bucket_of(key: Key) -> usize
    ensures { (result ≡ bucket_of key) × (result < 8192) }
{
    match key {
        Key::File(name) => hash(name.first, name.second, name.extension),
        Key::Open(word) => hash(0, 0, word),
    }
}

// Whether a key may stand once only: every one but the spared name.
fn is_once(key: Key) -> bool
    ensures { result ≡ once key }
{
    match key {
        Key::File(name) => !is_spared(name),
        Key::Open(_) => true,
    }
}

// The entries that have a key, by their places. They are numbered from 1 at the list's end: so 0 is none, and those passed so far, the
// latest first, stand in chain order.
#[derive(Clone, Copy)]
struct Listed<'a> {
    d: &'a [u16],
    width: usize,
    places: &'a [u16],
    ghost keyed: { Places d.now width places.now (length places.now) },
}

impl<'a> Listed<'a> {
    fn entry(&self, number: usize) -> Entry<'a>
        requires { (1 ≤ number) × (number ≤ length self.now.places.now) }
        ensures { result.words.now ≡ numbered self.now.d.now self.now.width self.now.places.now (length self.now.places.now) number }
    {
        let place = self.places[self.places.len() - number] as usize;
        Entry::new(&self.d[place..place + self.width])
    }

    // Whether one of the entries 1 to `passed` has the key, and it may stand once only. `first` is the latest of them in the key's bucket, and
    // `earlier` leads from each to the one before it there; so the entries of other buckets are never read. An entry of the key ends the walk
    // in either case: of many files FILE.BAD each is held to the one before it alone.
    fn met(&self, earlier: &[u16; ROOM], passed: usize, first: usize, key: Key) -> bool
        requires { Threaded self.now.d.now self.now.width self.now.places.now (length self.now.places.now) earlier.now passed
            × (first ≡ latest self.now.d.now self.now.width self.now.places.now (length self.now.places.now) (bucket_of key) passed) }
        ensures { result ≡ once key && any (holds key) (seen self.now.d.now self.now.width self.now.places.now (length self.now.places.now) passed) }
    {
        let mut number: usize = first;
        // A `while`, since each turn goes where the table leads, and counts nothing.
        while 0 < number {
            if slot_keyed(&self.entry(number), key) {
                return is_once(key);
            }
            number = earlier[number] as usize;
        }
        false
    }

    // Whether two of the entries clash: each is looked for among those met before it, and then put into its bucket.
    fn clash(&self) -> bool
        ensures { result ≡ clashes (seen self.now.d.now self.now.width self.now.places.now (length self.now.places.now) (length self.now.places.now)) }
    {
        let mut latest = [0u16; BUCKETS];
        let mut earlier = [0u16; ROOM];
        for passed in 0..self.places.len() {
            let number = passed + 1;
            let key = key_of(&self.entry(number));
            let bucket = bucket_of(key);
            let first = latest[bucket];
            if self.met(&earlier, passed, first as usize, key) {
                return true;
            }
            earlier[number] = first;
            latest[bucket] = number as u16;
        }
        false
    }
}

// Rule 6: whether two entries have one key, and it may stand once only. Fewer than two entries don't clash: a nearly empty directory
// then pays for no buckets.
pub fn entries_clash(d: &[u16]) -> bool
    requires { Chained d.now }
    ensures { result ≡ bad6 d.now }
{
    let width = 7 + (d[3] / 2) as usize;
    let mut places = [0u16; ROOM];
    let count = list_chain(d, width, &mut places);
    let listed = Listed {
        d,
        width,
        places: &places[..count],
    };
    2 <= count && listed.clash()
}
