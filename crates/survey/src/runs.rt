// Runs of neighbouring empty entries, as a walk over a segment's entries meets them, and what becomes of a segment once they are joined.
ghost use Rattle.std.specs.Prelude.{◌≡◌, ◌+◌, ◌≤◌};
ghost use Rattle.meaning.specs.Kinds.{kind_of};
ghost use Rattle.meaning.specs.Words.{kind, slots, upto};
ghost use Rattle.tidy.specs.Tidied.{Tidyable};
ghost use Rattle.survey.specs.Runs.{sum_so_far, after, dropped, LeftBy, LetOut, Outlined};

use segment::entries::entries_of;
use segment::entry::Entry;
use segment::kinds;

// Where a walk stands. Either no run is open, and a tentative entry stands directly before or not; or a run is open: the sum of its
// lengths so far, and whether a tentative entry stands before it.
#[derive(Clone, Copy)]
pub enum OpenRun {
    Calm(bool),
    Within(u16, bool),
}

// What is to be known of a segment before its areas are judged: how many entries it has once it is tidied, and how many it has.
#[derive(Clone, Copy)]
pub struct Outline {
    pub count: usize,
    pub entries: usize,
}

// Where the walk stands after a slot: an empty entry joins the run or opens one.
#[tactic(auto, unfolding(crate::specs::Runs::after))]
pub fn run_after(run: OpenRun, status: u16, blocks: u16) -> OpenRun
    requires { sum_so_far run + blocks ≤ 65535 }
    ensures { result ≡ after run (kind_of status) blocks }
{
    if !kinds::is_empty(status) {
        return OpenRun::Calm(kinds::is_tentative(status));
    }
    match run {
        OpenRun::Calm(held) => OpenRun::Within(blocks, held),
        OpenRun::Within(sum, held) => OpenRun::Within(sum + blocks, held),
    }
}

// Whether the sum of a run that ends is dropped. `held`: a tentative entry stands before the run.
pub fn is_dropped(sum: u16, held: bool) -> bool
    ensures { result ≡ dropped sum held }
{
    sum == 0 && !held
}

// How many entries a run that ends becomes: one, or none where its sum is dropped.
fn left_by(run: OpenRun) -> usize
    ensures { LeftBy result run }
{
    match run {
        OpenRun::Calm(_) => 0,
        OpenRun::Within(sum, held) => { if is_dropped(sum, held) { 0 } else { 1 } }
    }
}

// How many entries an entry lets out: an empty one waits in its run, and any other ends the run and follows it.
#[tactic(auto, unfolding(crate::specs::Runs::lets))]
fn let_out(run: OpenRun, entry: &Entry<'_>) -> usize
    ensures { LetOut result run (kind entry.now.words.now) }
{
    if kinds::is_empty(entry.status()) {
        0
    } else {
        left_by(run) + 1
    }
}

// A segment in one walk. The entries are counted by hand: the index of an `enumerate` is gone when the loop ends.
pub fn outline_of(segment: &[u16], width: usize) -> Outline
    requires { Tidyable width segment.now }
    ensures { Outlined result (upto (slots width segment.now)) }
{
    let mut count: usize = 0;
    let mut entries: usize = 0;
    let mut run = OpenRun::Calm(false);
    for entry in entries_of(segment, width) {
        count += let_out(run, &entry);
        entries += 1;
        run = run_after(run, entry.status(), entry.blocks());
    }
    Outline {
        count: count + left_by(run),
        entries,
    }
}
