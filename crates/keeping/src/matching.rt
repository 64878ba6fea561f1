// Whether two directories list the same files, each as often, in whatever order. Each file of the first is taken out of the second's table, where
// it nearly always stands in front.
ghost use Rattle.std.specs.Prelude.{◌≡◌, ◌<◌, ◌+◌, ◌++◌, length, take, drop, map};
ghost use Rattle.repaired.specs.Kept.{same_file, same_files};
ghost use Rattle.walks.specs.Lists.{All};
ghost use Rattle.keeping.specs.Tables.{Within, file_of, TakenFrom};

use crate::File;
use segment::naming::is_named;

// Whether what `x` lists in `d` is the file that `y` lists in `w`. First blocks nearly always tell two files apart.
fn same_file(d: &[u16], x: &File, w: &[u16], y: &File) -> bool
    requires { Within d.now x.now × Within w.now y.now }
    ensures { result ≡ same_file (file_of d.now x.now) (file_of w.now y.now) }
{
    let p = x.entry(d);
    let q = y.entry(w);
    x.first == y.first
        && p.status() == q.status()
        && is_named(&p, q.name())
        && p.blocks() == q.blocks()
        && p.date() == q.date()
}

// The rows before this place handed on, each to the next place; the front keeps its own. (Of `copy_within` by one place the compiler would make a call of
// C's `memmove`, a name that an archive of this library for C needs nowhere else: docs/LOOK-BACK.md.)
fn hand_on(table: &mut [File], place: usize)
    requires { place < length table.old }
    ensures { table.new ≡ take 1 table.old ++ (take place table.old ++ drop (place + 1) table.old) }
{
    let mut carry = table[0];
    for k in 1..place + 1 {
        let there = table[k];
        table[k] = carry;
        carry = there;
    }
}

// The first file in `w`'s table that is the one listed as `x` in `d`, taken out: those before it move up by one, and what stands in front then is
// nobody's. Whether there is one.
fn take_out(d: &[u16], x: &File, w: &[u16], table: &mut [File]) -> bool
    requires { Within d.now x.now × All (Within w.now) table.old }
    ensures { TakenFrom d.now x.now w.now table.old table.new result }
{
    let Some(place) = table.iter().position(|y| same_file(d, x, w, y)) else {
        return false;
    };
    hand_on(table, place);
    true
}

// The table of `w` is used up.
pub fn same_files(d: &[u16], files: &[File], w: &[u16], table: &mut [File]) -> bool
    requires { All (Within d.now) files.now × All (Within w.now) table.old }
    ensures { result ≡ same_files (map (file_of d.now) files.now) (map (file_of w.now) table.old) }
{
    if files.len() != table.len() {
        return false;
    }
    for (i, file) in files.iter().enumerate() {
        if !take_out(d, file, w, &mut table[i..]) {
            return false;
        }
    }
    true
}
