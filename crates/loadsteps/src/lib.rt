// Absolute load files byte by byte (document 02, Req 11): the state of a reader between two bytes, and one byte's step. What a state means, and what a
// run comes to, stands in specs/.
#![tactic(auto)]

pub mod steps;

// Which byte is due, with what the block's header has said so far.
#[derive(Clone, Copy)]
pub enum Phase {
    // byte 1 of a block, or a zero between blocks
    Start,
    // the byte 0 after the 1
    Zero,
    CountLow,
    // the count's low byte
    CountHigh(u8),
    // how many data bytes the block has
    AddressLow(u16),
    // the same, and the address's low byte
    AddressHigh(u16, u8),
    // where the next data byte goes, and how many are due; after the last of them the checksum is due
    Data(usize, usize),
    // the checksum of the end block, whose address this is
    EndSum(u16),
    // the end block was accepted: the transfer address
    Accepted(u16),
    // the number of the refusal, no Fault: `Answer` has it, and the specs (`shown_at`, `until_end`) compare it
    Refused(u16),
}

// What a phase comes to: no data byte is due; so many are, from this address on; or the file is decided.
#[derive(Clone, Copy)]
pub enum Role {
    Passing,
    Storing(usize, usize),
    Accepted(u16),
    Refused(u16),
}

// A reader between two bytes: which byte is due; the sum of all bytes so far, modulo 256; how many data bytes were stored; and how many bytes were
// passed. The byte that shows a fault is not passed, so that `offset` is then its own.
#[derive(Clone, Copy)]
pub struct Reader {
    pub phase: Phase,
    pub sum: u8,
    pub stored: u64,
    pub offset: u64,
}

// What a reader answers: nothing final yet; the transfer address; or the number of the refusal, how many data bytes were stored, and the offset of the
// byte that showed it.
#[derive(Clone, Copy)]
pub enum Answer {
    Provisional,
    Accepted(u16),
    Refused(u16, u64, u64),
}
