// Types 7 and 8 of a case file (docs/CASES.md): the label in block 1, read and written. The present directory has no part in it.
#![tactic(auto)]

ghost use Rattle.std.specs.Prelude.{OnOk};
ghost use Rattle.cases.specs.Runs.{Further};

use cases::input::{BYTES, CaseFile, Head, long_at, word_at};
use cases::output::check_of_bytes;
use cases::{Stop, Why};
use label::{Label, read_label, write_label};
use std::io::Read;

// The line of a label: name and owner with their spaces, and one space between them.
fn line_of(name: [u8; 12], owner: [u8; 12]) -> [u8; 40] {
    let mut line = [b' '; 40];
    line[..14].copy_from_slice(b"label 0 LABEL ");
    line[14..26].copy_from_slice(&name);
    line[27..39].copy_from_slice(&owner);
    line[39] = b'\n';
    line
}

fn show_read(rt: &impl Print, label: Label) -> Result<(), Stop> {
    if label.number != 0 {
        println!(rt; "label {}", label.number)?;
    } else if label.labelled {
        rt.write_all(&line_of(label.name, label.owner))?;
    } else {
        println!(rt; "label 0 UNLABELLED")?;
    }
    Ok(())
}

// Name and owner stand behind the block. The check is over the block as the writer leaves it.
fn mark<R: Read>(rt: &impl Print, file: &mut CaseFile<R>, block: &mut [u8]) -> Result<(), Stop>
    ensures { OnOk result (Further R.remaining file.old file.new) }
{
    let mut name = [0u8; 12];
    file.read(&mut name)?;
    let mut owner = [0u8; 12];
    file.read(&mut owner)?;
    let number = write_label(block, name, owner);
    println!(rt; "mark {number} {}", check_of_bytes(block))?;
    Ok(())
}

// Both types begin with the bytes of a block, which may be too few or too many for one.
pub fn take_block<R: Read>(rt: &impl Print, file: &mut CaseFile<R>, head: &Head) -> Result<(), Stop>
    ensures { OnOk result (Further R.remaining file.old file.new) }
{
    let n = file.at_most(long_at(head, 2), BYTES, Why::Bytes, 4)?;
    let mut room = [0u8; BYTES];
    let bytes = &mut room[..n];
    file.read_counted(bytes)?;
    if word_at(head, 0) == 7 {
        return show_read(rt, read_label(bytes));
    }
    mark(rt, file, bytes)
}
