// One byte's step of the reader's state: which byte is due after it, a function for each kind of byte in a block; and the counters.
ghost use Rattle.std.specs.Prelude.{◌≡◌, false, ◌+◌, ◌*◌, ◌%◌, ◌≤◌};
ghost use Rattle.loadsteps.specs.Step.{up, after_start, after_one, after_count, after_header, after_sum, after_data, due};
ghost use Rattle.loadsteps.specs.Step.{role_of, decided_by, is_data, passed_by, decided, next};
ghost use Rattle.loads.specs.Faults.{number_of};
ghost use Rattle.loadsteps.specs.declared.Phase.TheVariants.{Refused};

use crate::{Phase, Reader, Role};
use loads::Fault;

// A counter, so much higher. It stops at its largest value.
#[tactic(auto, unfolding(crate::specs::Step::up, crate::specs::Step::capped))]
pub fn up_by(count: u64, more: usize) -> u64
    ensures { result ≡ up more count }
{
    count.saturating_add(more as u64)
}

fn refused(fault: Fault) -> Phase
    ensures { result ≡ Refused (number_of fault) }
{
    Phase::Refused(fault.number())
}

#[tactic(auto, unfolding(crate::specs::Step::after_start))]
fn after_start(byte: u8) -> Phase
    ensures { result ≡ after_start byte }
{
    match byte {
        0 => Phase::Start,
        1 => Phase::Zero,
        _ => refused(Fault::Start),
    }
}

#[tactic(auto, unfolding(crate::specs::Step::after_one))]
fn after_one(byte: u8) -> Phase
    ensures { result ≡ after_one byte }
{
    if byte == 0 {
        Phase::CountLow
    } else {
        refused(Fault::Start)
    }
}

#[tactic(auto, unfolding(crate::specs::Step::after_count))]
fn after_count(count: u16) -> Phase
    ensures { result ≡ after_count count }
{
    if count < 6 {
        refused(Fault::Count)
    } else {
        Phase::AddressLow(count - 6)
    }
}

// The sum of address and count is made in a usize, so that it is not reduced by 65,536.
#[tactic(auto, unfolding(crate::specs::Step::after_header))]
fn after_header(size: usize, count: u16, address: u16) -> Phase
    ensures { result ≡ after_header size count address }
{
    if count == 0 {
        Phase::EndSum(address)
    } else if size < address as usize + count as usize {
        refused(Fault::Outside)
    } else {
        Phase::Data(address as usize, count as usize)
    }
}

#[tactic(auto, unfolding(crate::specs::Step::after_sum))]
fn after_sum(sum: u8, right: Phase) -> Phase
    ensures { result ≡ after_sum sum right }
{
    if sum == 0 {
        right
    } else {
        refused(Fault::Checksum)
    }
}

// Only a caller who lends a shorter memory for a later piece gets 29 here.
#[tactic(auto, unfolding(crate::specs::Step::after_data))]
fn after_data(size: usize, address: usize, left: usize, sum: u8) -> Phase
    requires { size ≤ 65536 }
    ensures { result ≡ after_data size address left sum }
{
    if left == 0 {
        after_sum(sum, Phase::Start)
    } else if address < size {
        Phase::Data(address + 1, left - 1)
    } else {
        refused(Fault::Outside)
    }
}

impl Phase {
    // Which byte is due after this one, where `sum` is that of all bytes so far, this one included.
    fn after(self, size: usize, sum: u8, byte: u8) -> Phase
        requires { size ≤ 65536 }
        ensures { result ≡ due size self sum byte }
    {
        match self {
            Phase::Start => after_start(byte),
            Phase::Zero => after_one(byte),
            Phase::CountLow => Phase::CountHigh(byte),
            Phase::CountHigh(low) => after_count(u16::from_le_bytes([low, byte])),
            Phase::AddressLow(count) => Phase::AddressHigh(count, byte),
            Phase::AddressHigh(count, low) => {
                after_header(size, count, u16::from_le_bytes([low, byte]))
            }
            Phase::Data(address, left) => after_data(size, address, left, sum),
            Phase::EndSum(transfer) => after_sum(sum, Phase::Accepted(transfer)),
            Phase::Accepted(_) | Phase::Refused(_) => self,
        }
    }

    // What it comes to.
    pub fn role(self) -> Role
        ensures { result ≡ role_of self }
    {
        match self {
            Phase::Start
            | Phase::Zero
            | Phase::CountLow
            | Phase::CountHigh(_)
            | Phase::AddressLow(_)
            | Phase::AddressHigh(_, _)
            | Phase::EndSum(_) => Role::Passing,
            Phase::Data(address, left) => Role::Storing(address, left),
            Phase::Accepted(transfer) => Role::Accepted(transfer),
            Phase::Refused(number) => Role::Refused(number),
        }
    }
}

impl Role {
    pub fn is_decided(self) -> bool
        ensures { result ≡ decided_by self }
    {
        matches!(self, Role::Accepted(_) | Role::Refused(_))
    }

    // How many bytes are passed by a byte that led to it.
    fn passed(self) -> usize
        ensures { result ≡ passed_by self }
    {
        match self {
            Role::Refused(_) => 0,
            _ => 1,
        }
    }
}

impl Reader {
    // The file is accepted or refused.
    pub fn is_decided(self) -> bool
        ensures { result ≡ decided self }
    {
        self.phase.role().is_decided()
    }

    // The reader after a byte that is not stored, over a memory of so many bytes.
    pub fn step(self, size: usize, byte: u8) -> Reader
        requires { (size ≤ 65536) × (decided self ≡ false) × (is_data size (role_of self.phase) ≡ false) }
        ensures { result ≡ next size self byte }
    {
        let sum = self.sum.wrapping_add(byte);
        let phase = self.phase.after(size, sum, byte);
        Reader {
            phase,
            sum,
            stored: self.stored,
            offset: up_by(self.offset, phase.role().passed()),
        }
    }
}
