// A lent memory of 16-bit words as bytes, low byte first; and the sum of bytes.
ghost use Rattle.std.specs.Prelude.{◌≡◌, ◌+◌, ◌*◌, ◌%◌, ◌≤◌, ◌<◌, length};
ghost use Rattle.loads.specs.Memory.{byte_at, with_byte, put_byte, puts};
ghost use Rattle.loads.specs.Blocks.{byte_sum};
ghost use Rattle.loads.specs.Bounds.{MemorySize};

// How many bytes of the memory a load file can have.
#[tactic(auto, unfolding(crate::specs::Memory::limit))]
pub fn size_of(words: &[u16]) -> usize
    ensures { MemorySize result words.now }
{
    2 * words.len().min(32768)
}

// The byte at an address that the memory has.
#[tactic(auto, unfolding(crate::specs::Memory::byte_at))]
pub fn byte_at(words: &[u16], address: usize) -> u8
    requires { address < 2 * length words.now }
    ensures { result ≡ byte_at words.now address }
{
    words[address / 2].to_le_bytes()[address % 2]
}

// A word with a byte in the half that the address names.
#[tactic(auto, unfolding(crate::specs::Memory::with_byte))]
fn with_byte(word: u16, address: usize, byte: u8) -> u16
    ensures { result ≡ with_byte word address byte }
{
    let mut halves = word.to_le_bytes();
    halves[address % 2] = byte;
    u16::from_le_bytes(halves)
}

// One byte stored.
#[tactic(auto, unfolding(crate::specs::Memory::put_byte))]
fn put_byte(words: &mut [u16], address: usize, byte: u8)
    requires { address < 2 * length words.old }
    ensures { words.new ≡ put_byte address byte words.old }
{
    words[address / 2] = with_byte(words[address / 2], address, byte);
}

// Bytes stored from an even address on, two at a time as long as there are two.
fn put_pairs(words: &mut [u16], address: usize, bytes: &[u8])
    requires { (address % 2 ≡ 0) × (address + length bytes.now ≤ 2 * length words.old) }
    ensures { words.new ≡ puts address bytes.now words.old }
{
    let (pairs, last) = bytes.as_chunks::<2>();
    for (i, pair) in pairs.iter().enumerate() {
        words[address / 2 + i] = u16::from_le_bytes(*pair);
    }
    if let Some(byte) = last.first() {
        put_byte(words, address + 2 * pairs.len(), *byte);
    }
}

// Bytes stored from an address on. At an odd one the first byte is the high half of its word.
#[tactic(auto, using(crate::proofs::Bytes::puts_none, crate::proofs::Bytes::puts_first))]
pub fn put_bytes(words: &mut [u16], address: usize, bytes: &[u8])
    requires { address + length bytes.now ≤ 2 * length words.old }
    ensures { words.new ≡ puts address bytes.now words.old }
{
    if address % 2 == 0 {
        put_pairs(words, address, bytes);
        return;
    }
    if let [first, rest @ ..] = bytes {
        put_byte(words, address, *first);
        put_pairs(words, address + 1, rest);
    }
}

// The sum of bytes modulo 256. In one byte, so that the compiler adds many at once.
pub fn sum_of(bytes: &[u8]) -> u8
    ensures { result ≡ byte_sum bytes.now % 256 }
{
    bytes.iter().fold(0u8, |sum, byte| sum.wrapping_add(*byte))
}
