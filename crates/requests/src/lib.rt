// Each request as a call of its own: a record that is handed to the door. What the door itself has, the record of any kind, a lookup, the
// fault and a fresh start, is passed on under this name, so that a user needs no other.
#![tactic(auto)]

ghost use Rattle.meaning.specs.Answers.{Meets};
ghost use Rattle.meaning.specs.Requests.{delete, protect, unprotect, abandon, rename, close};
ghost use Rattle.meaning.specs.Enter.{enter};
ghost use Rattle.meaning.specs.Batch.{serve_by};
ghost use Rattle.requests.specs.Records.{on_file};

pub use door::{fault, fresh, lookup, serve};
use meaning::{Answer, Name, Op, Request};

// A request with no use for any field. Each call below says the fields that its own request reads.
const BLANK: Request = Request {
    op: Op::Lookup,
    name: NO_NAME,
    new_name: NO_NAME,
    job: 0,
    channel: 0,
    size: 0,
    final_length: 0,
    date: 0,
};

const NO_NAME: Name = Name {
    first: 0,
    second: 0,
    extension: 0,
};

// A request on a file, by its name alone.
#[tactic(auto, unfolding(meaning::specs::Batch::serve))]
fn on_file(d: &mut [u16], v: usize, op: Op, name: Name) -> Answer
    ensures { Meets result d.new (serve_by op v d.old (on_file op name)) }
{
    serve(
        d,
        v,
        Request {
            op,
            name,
            new_name: name,
            ..BLANK
        },
    )
}

pub fn delete(d: &mut [u16], v: usize, name: Name) -> Answer
    ensures { Meets result d.new (delete v d.old name) }
{
    on_file(d, v, Op::Delete, name)
}

// A protected file can't be deleted, renamed or replaced until it is unprotected.
pub fn protect(d: &mut [u16], v: usize, name: Name) -> Answer
    ensures { Meets result d.new (protect v d.old name) }
{
    on_file(d, v, Op::Protect, name)
}

pub fn unprotect(d: &mut [u16], v: usize, name: Name) -> Answer
    ensures { Meets result d.new (unprotect v d.old name) }
{
    on_file(d, v, Op::Unprotect, name)
}

#[tactic(auto, unfolding(meaning::specs::Batch::serve))]
pub fn rename(d: &mut [u16], v: usize, old: Name, new: Name) -> Answer
    ensures { Meets result d.new (rename v d.old old new) }
{
    serve(
        d,
        v,
        Request {
            op: Op::Rename,
            name: old,
            new_name: new,
            ..BLANK
        },
    )
}

#[tactic(auto, unfolding(meaning::specs::Batch::serve))]
pub fn abandon(d: &mut [u16], v: usize, job: u16, channel: u16) -> Answer
    ensures { Meets result d.new (abandon v d.old job channel) }
{
    serve(
        d,
        v,
        Request {
            op: Op::Abandon,
            job,
            channel,
            ..BLANK
        },
    )
}

pub fn close(d: &mut [u16], v: usize, job: u16, channel: u16, final_length: i32) -> Answer
    ensures { Meets result d.new (close v d.old job channel final_length) }
{
    serve(
        d,
        v,
        Request {
            op: Op::Close,
            job,
            channel,
            final_length,
            ..BLANK
        },
    )
}

// A size is -1 for the longest, 0 for RT-11's default, or 1 to 65,535 blocks.
pub fn enter(
    d: &mut [u16],
    v: usize,
    name: Name,
    size: i32,
    job: u16,
    channel: u16,
    date: u16,
) -> Answer
    ensures { Meets result d.new (enter v d.old name size job channel date) }
{
    serve(
        d,
        v,
        Request {
            op: Op::Enter,
            name,
            job,
            channel,
            size,
            date,
            ..BLANK
        },
    )
}
