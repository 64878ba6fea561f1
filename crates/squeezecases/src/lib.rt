// Type 4 of a case file (docs/CASES.md): a squeeze of the present directory.
#![tactic(auto)]

ghost use Rattle.std.specs.Prelude.{◌≡◌, ◌<◌, IsErr, length};
ghost use Rattle.meaning.specs.Listing.{word_at};

use cases::input::{CaseFile, Head, word_at};
use cases::output::check_of;
use cases::{Stop, Why};
use squeeze::squeeze;
use std::io::Read;

// Room for 2,300 moves of three words.
const MOVES: usize = 2300;

const ROOM: usize = 6900;

// The room: how many moves the list holds. The lines are the number, the count and the check over the directory as it now stands, and the moves.
pub fn take_squeeze<R: Read>(
    rt: &impl Print,
    file: &CaseFile<R>,
    d: &mut [u16],
    blocks: usize,
    head: &Head,
) -> Result<(), Stop>
    ensures refused { 2300 < word_at head.now 2 → IsErr result }
    ensures kept { 2300 < word_at head.now 2 → d.new ≡ d.old }
{
    let n = file.at_most(word_at(head, 2) as u32, MOVES, Why::Moves, 2)?;
    let mut room = [0u16; ROOM];
    let list = &mut room[..3 * n];
    let report = squeeze(d, blocks, list);
    println!(rt;
        "squeeze {} {} {}",
        report.number,
        report.count,
        check_of(d)
    )?;
    let (moves, _) = list.as_chunks::<3>();
    for words in moves.iter().take(report.count) {
        println!(rt; "move {} {} {}", words[0], words[1], words[2])?;
    }
    Ok(())
}
