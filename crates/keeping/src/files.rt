// The files that a damaged directory is to keep, listed in chain order.
ghost use Rattle.std.specs.Prelude.{◌≡◌, ◌*◌, ◌≤◌, length};
ghost use Rattle.meaning.specs.Words.{segment};
ghost use Rattle.chain.specs.Chained.{Chained};
ghost use Rattle.repaired.specs.Kept.{kept_in, kept_files};
ghost use Rattle.keeping.specs.Tables.{Listed};

use crate::File;
use segment::entries::entries_of;
use segment::kinds;

// The files of the segment of this number, listed at the front of the table. Blocks are summed in a usize, so that nothing is reduced by 65,536.
// How many rows are listed is told beside the table, since there is no heap (a rule of the project).
pub fn list_entries(d: &[u16], width: usize, number: usize, table: &mut [File]) -> usize
    requires { (7 ≤ width) × (1 ≤ number) × (number ≤ 31) × (512 * number ≤ length d.now) × (72 ≤ length table.old) }
    ensures { Listed d.now (kept_in width (segment d.now number)) (length table.old) 72 table.new result }
{
    let base = 512 * (number - 1);
    let mut at = base + 5;
    let mut first = d[base + 4] as usize;
    let mut count: usize = 0;
    for entry in entries_of(&d[base..base + 512], width) {
        let status = entry.status();
        if kinds::is_unreadable(status) {
            return count;
        }
        if kinds::is_permanent(status) {
            table[count] = File {
                first: first as u32,
                at: at as u32,
            };
            count += 1;
        }
        at += width;
        first += entry.blocks() as usize;
    }
    count
}

// The files of the whole chain.
pub fn list_files(d: &[u16], table: &mut [File]) -> usize
    requires { Chained d.now × (2232 ≤ length table.old) }
    ensures { Listed d.now (kept_files d.now) (length table.old) 2232 table.new result }
{
    let width = 7 + (d[3] / 2) as usize;
    let mut number: usize = 1;
    let mut count: usize = 0;
    for _ in 0..d[2] {
        count += list_entries(d, width, number, &mut table[count..]);
        number = d[512 * (number - 1) + 1] as usize;
    }
    count
}
