// What a turn of the reader takes of a piece: the data bytes that are there of a block, stored in a row; a whole header; or one byte.
ghost use Rattle.std.specs.Prelude.{◌≡◌, false, ◌+◌, ◌≤◌, ◌<◌, length, get_or, IfSome};
ghost use Rattle.loadsteps.specs.Step.{role_of, is_data, decided, next};
ghost use Rattle.pieces.specs.Turns.{run_length, behind, DataHeader, behind_header, Ready, PassedOver, Took};
ghost use Rattle.loadsteps.specs.declared.Phase.TheVariants.{Start};

use loads::memory::{put_bytes, sum_of};
use loadsteps::steps::up_by;
use loadsteps::{Phase, Reader, Role};

// How many bytes a turn took, and the reader behind them.
#[derive(Clone, Copy)]
pub(crate) struct Turn {
    pub(crate) reader: Reader,
    pub(crate) count: usize,
}

// How many of the next bytes are data that the memory has a place for.
#[tactic(auto, unfolding(crate::specs::Turns::run_length))]
fn run_of(size: usize, address: usize, left: usize, bytes: usize) -> usize
    ensures { result ≡ run_length size address left bytes }
{
    bytes.min(left).min(size.saturating_sub(address))
}

// The reader behind data bytes, which `left` were due of, from the address on.
#[tactic(auto, unfolding(crate::specs::Turns::behind))]
fn past(reader: Reader, address: usize, left: usize, bytes: &[u8]) -> Reader
    requires { (address + length bytes.now ≤ 65536) × (length bytes.now ≤ left) }
    ensures { result ≡ behind reader address left bytes.now }
{
    let count = bytes.len();
    Reader {
        phase: Phase::Data(address + count, left - count),
        sum: reader.sum.wrapping_add(sum_of(bytes)),
        stored: up_by(reader.stored, count),
        offset: up_by(reader.offset, count),
    }
}

// The first byte, which is not stored.
fn one(reader: Reader, rest: &[u8], size: usize) -> Turn
    requires { (size ≤ 65536) × (0 < length rest.now) × (decided reader ≡ false) × (is_data size (role_of reader.phase) ≡ false) }
    ensures { (result.count ≡ 1) × (result.reader ≡ next size reader (get_or rest.now 0 0)) }
{
    Turn {
        reader: reader.step(size, rest[0]),
        count: 1,
    }
}

// How many data bytes a header announces that stands first, whole, and whose data have their places.
#[tactic(auto, unfolding(loads::specs::Blocks::count_of, loads::specs::Blocks::address_of, loads::specs::Blocks::pair_at))]
fn announced(size: usize, rest: &[u8]) -> Option<usize>
    ensures { IfSome result (λ n. DataHeader size n rest.now) }
{
    let [1, 0, low, high, address_low, address_high, ..] = rest else {
        return None;
    };
    let count = u16::from_le_bytes([*low, *high]) as usize;
    let address = u16::from_le_bytes([*address_low, *address_high]) as usize;
    if count <= 6 || size < address + (count - 6) {
        return None;
    }
    Some(count - 6)
}

// The reader behind a header, which `count` data bytes follow.
#[tactic(auto, unfolding(crate::specs::Turns::behind_header, loads::specs::Blocks::address_of, loads::specs::Blocks::pair_at))]
fn past_header(reader: Reader, count: usize, rest: &[u8]) -> Reader
    requires { 6 ≤ length rest.now }
    ensures { result ≡ behind_header reader count rest.now }
{
    Reader {
        phase: Phase::Data(u16::from_le_bytes([rest[4], rest[5]]) as usize, count),
        sum: reader.sum.wrapping_add(sum_of(&rest[0..6])),
        offset: up_by(reader.offset, 6),
        ..reader
    }
}

// Where a block should start: all of its header, or the first byte.
fn open_block(reader: Reader, rest: &[u8], size: usize) -> Turn
    requires { (size ≤ 65536) × (0 < length rest.now) × (reader.phase ≡ Start) }
    ensures { PassedOver size reader rest.now result.count result.reader }
{
    match announced(size, rest) {
        Some(count) => Turn {
            reader: past_header(reader, count, rest),
            count: 6,
        },
        None => one(reader, rest, size),
    }
}

// The first bytes, which are not stored: a header at once where all of it is there, or one byte.
fn pass(reader: Reader, rest: &[u8], size: usize) -> Turn
    requires { (size ≤ 65536) × (0 < length rest.now) × (decided reader ≡ false) × (is_data size (role_of reader.phase) ≡ false) }
    ensures { PassedOver size reader rest.now result.count result.reader }
{
    match reader.phase {
        Phase::Start => open_block(reader, rest, size),
        _ => one(reader, rest, size),
    }
}

// All data bytes that are there of a block, or other bytes.
#[tactic(auto, using(crate::proofs::Turns::storing, crate::proofs::Turns::run_took, crate::proofs::Turns::one_took, crate::proofs::Turns::passed_took, crate::proofs::Turns::no_run, crate::proofs::Turns::run_fits, crate::proofs::Turns::run_long, crate::proofs::Turns::positive))]
pub(crate) fn take_some(reader: Reader, rest: &[u8], size: usize, words: &mut [u16]) -> Turn
    requires { Ready size reader rest.now words.old }
    ensures { Took size reader rest.now words.old result.count result.reader words.new }
{
    match reader.phase.role() {
        Role::Passing => pass(reader, rest, size),
        Role::Storing(address, left) => {
            let run = run_of(size, address, left, rest.len());
            if run == 0 {
                return one(reader, rest, size);
            }
            put_bytes(words, address, &rest[0..run]);
            Turn {
                reader: past(reader, address, left, &rest[0..run]),
                count: run,
            }
        }
        Role::Accepted(_) | Role::Refused(_) => one(reader, rest, size),
    }
}
