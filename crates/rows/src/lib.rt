// What the listing shows of the entries: a row for each, and the totals in blocks. Each is one walk over the entries.
#![tactic(auto)]

ghost use Rattle.std.specs.Prelude.{◌≡◌, ◌+◌, ◌≤◌, length, map};
ghost use Rattle.std.specs.Iterator.{YieldsFirst, item_count};
ghost use Rattle.meaning.specs.Words.{rows, all_entries};
ghost use Rattle.meaning.specs.Listing.{rows_text};
ghost use Rattle.lines.specs.Wrote.{WroteAtMost};
ghost use Rattle.cursor.specs.Cursor.{seen_of};
ghost use Rattle.rows.specs.Rows.{IsSound, Shown, seen_text, TotalsAfter, TotalsOf, Underway, ahead};

use cursor::{Cursor, Seen};
use meaning::Kind;

// The blocks of permanent, of tentative and of empty entries.
#[derive(Clone, Copy)]
pub struct Totals {
    pub files: usize,
    pub opened: usize,
    pub free: usize,
}

// The entries of a sound directory, one by one, in chain order: `here` is the place of the next.
#[derive(Clone, Copy)]
struct Entries<'a> {
    d: &'a [u16],
    here: Cursor,
    ghost underway: { ∥ Underway d.now here ∥₁ },
}

fn entries_of(d: &[u16]) -> Entries<'_>
    requires { IsSound d.now }
    ensures { ahead result.d.now result.here ≡ map seen_of (rows d.now) }
{
    Entries {
        d,
        here: cursor::start(d),
    }
}

impl<'a> Iterator for Entries<'a> {
    type Item = Seen;

    ghost next_gives = { YieldsFirst (λ s. ahead s.d.now s.here) };

    ghost remaining = { item_count (λ s. ahead s.d.now s.here) };

    fn next(&mut self) -> Option<Seen> {
        let (seen, past) = cursor::step_from(self.d, self.here)?;
        self.here = past;
        Some(seen)
    }
}

// The row of an entry.
fn put_row(out: &mut [u8], at: usize, seen: Seen) -> usize
    requires { Shown seen × (at + 36 ≤ length out.old) }
    ensures { WroteAtMost 36 out.old at (seen_text seen) out.new result }
{
    lines::row_text(
        out,
        at,
        seen.kind,
        seen.name.first,
        seen.name.second,
        seen.name.extension,
        seen.first,
        seen.length,
        seen.date,
    )
}

// The rows of all entries: at most 2,201, since 31 segments hold 71 entries each, of 36 bytes.
pub fn put_rows(out: &mut [u8], at: usize, d: &[u16]) -> usize
    requires { IsSound d.now × (at + 79236 ≤ length out.old) }
    ensures { WroteAtMost 79236 out.old at (rows_text (rows d.now)) out.new result }
{
    let mut next = at;
    for seen in entries_of(d) {
        next = put_row(out, next, seen);
    }
    next
}

// The totals with one entry more. A marker and an unknown status have no blocks.
fn count_entry(totals: Totals, seen: Seen) -> Totals
    requires { (totals.files ≤ 65535) × (totals.opened ≤ 65535) × (totals.free ≤ 65535) }
    ensures { TotalsAfter totals seen.kind seen.length result }
{
    let blocks = seen.length as usize;
    match seen.kind {
        Kind::Tentative => Totals {
            opened: totals.opened + blocks,
            ..totals
        },
        Kind::Empty => Totals {
            free: totals.free + blocks,
            ..totals
        },
        Kind::Permanent => Totals {
            files: totals.files + blocks,
            ..totals
        },
        Kind::End | Kind::Unknown => totals,
    }
}

// The totals of all entries. None is above V, since the entries fill the volume.
pub fn total_blocks(d: &[u16]) -> Totals
    requires { IsSound d.now }
    ensures { TotalsOf (all_entries d.now) result }
{
    let mut sums = Totals {
        files: 0,
        opened: 0,
        free: 0,
    };
    for seen in entries_of(d) {
        sums = count_entry(sums, seen);
    }
    sums
}
