// What a stream goes on with: the tests of a block, in the order of the bytes that show a fault. `rest` is the stream from a place on.
ghost use Rattle.std.specs.Prelude.{◌≡◌, ◌+◌, ◌≤◌, length};
ghost use Rattle.loads.specs.Blocks.{pair_at, count_of, start_number, count_number, address_number, sum_number, block_number, right_block, part_of};
ghost use Rattle.loads.specs.Faults.{number_said};

use crate::memory::sum_of;
use crate::{Fault, Part};

// A 16-bit number, low byte first.
#[tactic(auto, unfolding(crate::specs::Blocks::pair_at))]
fn pair_at(rest: &[u8], at: usize) -> u16
    requires { at + 2 ≤ length rest.now }
    ensures { result ≡ pair_at rest.now at }
{
    u16::from_le_bytes([rest[at], rest[at + 1]])
}

// The bytes 1 and 0.
#[tactic(auto, unfolding(crate::specs::Blocks::start_number, crate::specs::Blocks::is_short))]
fn check_start(rest: &[u8]) -> Result<(), Fault>
    requires { 1 ≤ length rest.now }
    ensures { number_said result ≡ start_number rest.now }
{
    match rest {
        [1, 0, ..] => Ok(()),
        [1] => Err(Fault::Short),
        _ => Err(Fault::Start),
    }
}

#[tactic(auto, unfolding(crate::specs::Blocks::count_number, crate::specs::Blocks::is_short, crate::specs::Blocks::count_of))]
fn check_count(rest: &[u8]) -> Result<(), Fault>
    ensures { number_said result ≡ count_number rest.now }
{
    if rest.len() < 4 {
        return Err(Fault::Short);
    }
    if pair_at(rest, 2) < 6 {
        return Err(Fault::Count);
    }
    Ok(())
}

// The sum of address and count is made in a usize, so that it is not reduced by 65,536. An end block's address may be any.
#[tactic(auto, unfolding(crate::specs::Blocks::address_number, crate::specs::Blocks::is_short, crate::specs::Blocks::is_outside, crate::specs::Blocks::is_end_block, crate::specs::Blocks::count_of, crate::specs::Blocks::data_count, crate::specs::Blocks::address_of))]
fn check_address(rest: &[u8], size: usize) -> Result<(), Fault>
    requires { (4 ≤ length rest.now) × (6 ≤ count_of rest.now) }
    ensures { number_said result ≡ address_number size rest.now }
{
    if rest.len() < 6 {
        return Err(Fault::Short);
    }
    let count = pair_at(rest, 2);
    if count == 6 {
        return Ok(());
    }
    if size < pair_at(rest, 4) as usize + (count - 6) as usize {
        return Err(Fault::Outside);
    }
    Ok(())
}

// The data and the checksum.
#[tactic(auto, using(crate::proofs::Parts::sum_bad, crate::proofs::Parts::sum_good, crate::proofs::Parts::sum_short), unfolding(crate::specs::Blocks::count_of))]
fn check_sum(rest: &[u8]) -> Result<(), Fault>
    requires { 4 ≤ length rest.now }
    ensures { number_said result ≡ sum_number rest.now }
{
    let whole = pair_at(rest, 2) as usize + 1;
    if rest.len() < whole {
        return Err(Fault::Short);
    }
    if sum_of(&rest[0..whole]) != 0 {
        return Err(Fault::Checksum);
    }
    Ok(())
}

#[tactic(auto, using(crate::proofs::Parts::first_zero, crate::proofs::Parts::first_not, crate::proofs::Parts::counted), unfolding(crate::specs::Blocks::block_number))]
fn check_block(rest: &[u8], size: usize) -> Result<(), Fault>
    requires { 1 ≤ length rest.now }
    ensures { number_said result ≡ block_number size rest.now }
{
    check_start(rest)?;
    check_count(rest)?;
    check_address(rest, size)?;
    check_sum(rest)
}

// A block that is known to be right: the end block, or one with data.
#[tactic(auto, unfolding(crate::specs::Blocks::right_block, crate::specs::Blocks::is_end_block, crate::specs::Blocks::count_of, crate::specs::Blocks::address_of, crate::specs::Blocks::data_count))]
pub fn right_block(rest: &[u8]) -> Part
    requires { (6 ≤ length rest.now) × (6 ≤ count_of rest.now) }
    ensures { result ≡ right_block rest.now }
{
    let count = pair_at(rest, 2);
    let address = pair_at(rest, 4);
    if count == 6 {
        return Part::End(address);
    }
    Part::Block(address, count - 6)
}

// What the stream goes on with, over a memory of so many bytes.
#[tactic(auto, using(crate::proofs::Parts::right, crate::proofs::Parts::part_none, crate::proofs::Parts::part_gap, crate::proofs::Parts::part_block), unfolding(crate::specs::Blocks::block_by))]
pub fn part_of(rest: &[u8], size: usize) -> Part
    ensures { result ≡ part_of size rest.now }
{
    match rest.first() {
        None => Part::Refused(Fault::Short.number()),
        Some(0) => Part::Gap,
        Some(_) => match check_block(rest, size) {
            Ok(()) => right_block(rest),
            Err(fault) => Part::Refused(fault.number()),
        },
    }
}
