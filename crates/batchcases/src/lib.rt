// Type 100 of a case file (docs/CASES.md): a batch on the present directory.
#![tactic(auto)]

ghost use Rattle.std.specs.Prelude.{◌≤◌, OnOk};
ghost use Rattle.cases.specs.Runs.{Further};

use batch::run_some;
use cases::input::{CaseFile, Head, asked_at, word_at};
use cases::output::{Line, check_of, numbers_of};
use cases::{Stop, Why};
use meaning::{Name, Op, Request};
use std::io::Read;

const NO_NAME: Name = Name {
    first: 0,
    second: 0,
    extension: 0,
};

// What stands behind the requests of a batch. It is no matter, as the batch does not come to it.
const NO_REQUEST: Request = Request {
    op: Op::Lookup,
    name: NO_NAME,
    new_name: NO_NAME,
    job: 0,
    channel: 0,
    size: 0,
    final_length: 0,
    date: 0,
};

// So many requests of 28 bytes. The run ends at the first that is none of those that there are.
fn read_requests<R: Read>(file: &mut CaseFile<R>, count: usize) -> Result<[Request; 8], Stop>
    requires { count ≤ 8 }
    ensures { OnOk result (Further R.remaining file.old file.new) }
{
    let mut room = [0u8; 224];
    file.read(&mut room[..28 * count])?;
    let mut requests = [NO_REQUEST; 8];
    for i in 0..count {
        let at = 28 * i;
        let Some(request) = asked_at(&room, at) else {
            return Err(file.refused(Why::Request, word_at(&room, at) as u32, 28 * (count - i)));
        };
        requests[i] = request;
    }
    Ok(requests)
}

// The room for answers, how many requests there are, and the requests. The lines are the batch's number and the check over the directory as it now
// stands; and the answers, without a check, where the number is 0.
pub fn take_batch<R: Read>(
    rt: &impl Print,
    file: &mut CaseFile<R>,
    d: &mut [u16],
    blocks: usize,
    head: &Head,
) -> Result<(), Stop>
    ensures { OnOk result (Further R.remaining file.old file.new) }
{
    let room = file.at_most(word_at(head, 2) as u32, 8, Why::Room, 4)?;
    let count = file.at_most(word_at(head, 4) as u32, 8, Why::Requests, 2)?;
    let requests = read_requests(file, count)?;
    let part = run_some(d, blocks, requests, count, [meaning::refused(0); 8], room);
    println!(rt; "batch {} {}", part.number, check_of(d))?;
    if part.number == 0 {
        for answer in part.answers.iter().take(count) {
            println!(rt; "{}", Line("", &numbers_of(*answer, 0)[..6]))?;
        }
    }
    Ok(())
}
