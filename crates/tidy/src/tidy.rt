// Enter's first step: empty entries that stand side by side become one, and one without blocks goes, if no tentative entry needs it.
// In a segment that is untidy the entries are met once, from left to right, and written as they come out; `place` is where the next
// one goes.
ghost use Rattle.std.specs.Prelude.{◌≡◌, true, ◌+◌, ◌≤◌, ◌<◌, length, set};
ghost use Rattle.meaning.specs.Words.{length_word, blocks, slots, upto};
ghost use Rattle.meaning.specs.Enter.{tidy, untidy};
ghost use Rattle.walks.specs.Runs.{flushed};
ghost use Rattle.chain.specs.Chained.{Chained};
ghost use Rattle.segment.specs.Written.{Written};
ghost use Rattle.tidy.specs.OpenRun.{run_of, sum_of, after, left_of, out_of, Finished};
ghost use Rattle.tidy.specs.Tidied.{Tidyable, tidied_words, Small, TidiedFrom};

use crate::untidy::is_untidy;
use meaning::END;
use segment::copying::{copy_words, put_words};
use segment::entries::entries_of;
use segment::entry::Entry;
use segment::kinds;

// Where the walk over a segment's entries stands. Either no run is open, and a tentative entry stands directly before or not; or
// a run is open: its first entry, the sum of its lengths so far, and whether a tentative entry stands before it.
#[derive(Clone, Copy)]
enum RunAt<'a> {
    Calm(bool),
    Within(Entry<'a>, u16, bool),
}

// An entry with the length `sum`, written to `out`. The answer is the place after it. Its words go one by one: as the entry has waited in a run, the
// compiler can't tell that they lie apart from `out`, and would make of one copy a call of C's `memmove`, a name that an archive of this library
// for C needs nowhere else (docs/LOOK-BACK.md).
fn put_run(entry: &Entry<'_>, sum: u16, out: &mut [u16], place: usize) -> usize
    requires { place + length entry.now.words.now ≤ length out.old }
    ensures { Written out.old place (set entry.now.words.now length_word sum) out.new result }
{
    for (k, word) in entry.words.iter().enumerate() {
        out[place + k] = *word;
    }
    out[place + 4] = sum;
    place + entry.words.len()
}

// A run that ends, written to `out`: its first entry with the sum, or nothing.
fn flush(run: RunAt<'_>, out: &mut [u16], place: usize) -> usize
    requires { place + length (left_of (run_of run)) ≤ length out.old }
    ensures { Written out.old place (left_of (run_of run.entry)) out.new result }
{
    match run {
        RunAt::Calm(_) => place,
        RunAt::Within(first, sum, held) => {
            if sum == 0 && !held {
                return place;
            }
            put_run(&first, sum, out, place)
        }
    }
}

// What an entry lets out, written to `out`: an empty one waits in its run, and any other ends the run and follows it.
fn pass_entry(entry: &Entry<'_>, run: RunAt<'_>, out: &mut [u16], place: usize) -> usize
    requires { place + length (out_of (run_of run) entry.now.words.now) ≤ length out.old }
    ensures { Written out.old place (out_of (run_of run.entry) entry.now.words.now) out.new result }
{
    if kinds::is_empty(entry.status()) {
        return place;
    }
    let next = flush(run, out, place);
    put_words(entry.words, out, next)
}

// Where the walk stands after an entry: an empty one joins the run or opens one.
fn run_after<'a>(run: RunAt<'a>, entry: Entry<'a>) -> RunAt<'a>
    requires { sum_of (run_of run) + blocks entry.words.now ≤ 65535 }
    ensures { run_of result ≡ after (run_of run.entry) entry.entry.words.now }
{
    if !kinds::is_empty(entry.status()) {
        return RunAt::Calm(kinds::is_tentative(entry.status()));
    }
    match run {
        RunAt::Calm(held) => RunAt::Within(entry, entry.blocks(), held),
        RunAt::Within(first, sum, held) => RunAt::Within(first, sum + entry.blocks(), held),
    }
}

// The end of the entries: the last run, and the marker behind it.
fn finish(run: RunAt<'_>, out: &mut [u16], place: usize)
    requires { place + length (left_of (run_of run)) < length out.old }
    ensures { Finished out.old place (flushed (run_of run.entry)) out.new }
{
    let end = flush(run, out, place);
    out[end] = END;
}

// The entries of a segment tidied, written to `out` behind the header, and the marker. They are untidy, so that they become fewer.
fn write_tidied(segment: &[u16], width: usize, out: &mut [u16])
    requires { Tidyable width segment.now × (untidy (upto (slots width segment.now)) ≡ true) × (length out.old ≡ 512) }
    ensures { Finished out.old 5 (tidy (upto (slots width segment.now))) out.new }
{
    let mut place: usize = 5;
    let mut run = RunAt::Calm(false);
    for entry in entries_of(segment, width) {
        place = pass_entry(&entry, run, out, place);
        run = run_after(run, entry);
    }
    finish(run, out, place);
}

// One segment tidied. Where no run is joined or dropped it keeps every word, also those after its marker.
pub fn tidy_segment(segment: &mut [u16], width: usize)
    requires { Tidyable width segment.old }
    ensures { segment.new ≡ tidied_words width segment.old }
{
    if !is_untidy(segment, width) {
        return;
    }
    let mut out = [0u16; 512];
    copy_words(&segment[..5], &mut out, 0);
    write_tidied(segment, width, &mut out);
    segment.copy_from_slice(&out);
}

// Every open segment tidied, in chain order. The tidy leaves the headers, so the links stay as they are followed.
pub fn tidy_all(words: &mut [u16])
    requires { Chained words.old × Small words.old }
    ensures { TidiedFrom words.old words.new }
{
    let width = 7 + (words[3] / 2) as usize;
    let mut number: usize = 1;
    for _ in 0..words[2] {
        let start = 512 * (number - 1);
        let segment = &mut words[start..start + 512];
        number = segment[1] as usize;
        tidy_segment(segment, width);
    }
}
