// What is written: lines of a word and numbers, and the check that they have.
ghost use Rattle.std.specs.Prelude.{◌≡◌, ◌<◌};
ghost use Rattle.cases.specs.Lines.{numbers_of, Added, check};

use meaning::Answer;
use std::fmt;

// The divisor of the check: the largest prime below 65,536.
const PRIME: u64 = 65521;

// A line of a word and numbers, with a space between them. The word may be empty.
#[derive(Drop)]
pub struct Line<'a>(pub &'a str, pub &'a [u64]);

impl fmt::Display for Line<'_> {
    fn fmt<W: fmt::Write>(&self, f: &mut fmt::Formatter<W>) -> fmt::Result {
        f.write_str(self.0)?;
        for (i, number) in self.1.iter().enumerate() {
            if i > 0 || !self.0.is_empty() {
                f.write_str(" ")?;
            }
            write!(f, "{number}")?;
        }
        Ok(())
    }
}

// The numbers of an answer, in the order of its line, and the check behind them.
pub fn numbers_of(answer: Answer, check: u64) -> [u64; 7]
    ensures { result ≡ numbers_of answer check }
{
    [
        answer.number as u64,
        answer.first as u64,
        answer.length as u64,
        answer.date as u64,
        answer.segment as u64,
        answer.slot as u64,
        check,
    ]
}

// Both sums of a check.
#[derive(Clone, Copy)]
struct Sums {
    a: u64,
    b: u64,
}

// Both sums with a word or a byte more.
fn added(sums: Sums, word: u16) -> Sums
    requires { (sums.a < 65521) × (sums.b < 65521) }
    ensures { Added sums word result }
{
    let a = (sums.a + word as u64) % PRIME;
    Sums {
        a,
        b: (sums.b + a) % PRIME,
    }
}

// The check over all words: b·65536 + a.
pub fn check_of(words: &[u16]) -> u64
    ensures { result ≡ check words.now }
{
    let mut sums = Sums { a: 1, b: 0 };
    for word in words {
        sums = added(sums, *word);
    }
    sums.b * 65536 + sums.a
}

// The same over all bytes.
pub fn check_of_bytes(bytes: &[u8]) -> u64
    ensures { result ≡ check bytes.now }
{
    let mut sums = Sums { a: 1, b: 0 };
    for byte in bytes {
        sums = added(sums, *byte as u16);
    }
    sums.b * 65536 + sums.a
}
