// Runs the crate `names` on the texts that document 000 prints with their words, and over whole ranges of words, texts and days,
// each range as a check sum. What it must write comes from model/names.py, which was written from document 01 and not from `names`,
// so that a definition misread in the crate's specs, which no proof would show, shows here.
#![tactic(auto)]

ghost use Rattle.std.specs.Prelude.{◌≡◌, ◌<◌, length};

use dates::{day_of_word, is_good_date, word_of_day};
use names::{is_legal_name, text_of_words, words_of_text};
use std::io::Read;
use streams::read_full;

// Adler's check sum: but for rare chances it shows every wrong number, and right ones in a wrong order.

// The largest prime below 65,536. So a remainder fits a u16, and no caller has to bound a sum.
const PRIME: u32 = 65521;

// One more than the sum of the numbers; and the sum of all that this came to on the way, by which their order counts.
#[derive(Clone, Copy)]
struct Sum {
    low: u16,
    high: u16,
}

fn add(x: u16, y: u16) -> u16 {
    ((x as u32 + y as u32) % PRIME) as u16
}

impl Sum {
    fn new() -> Sum {
        Sum { low: 1, high: 0 }
    }

    fn with(self, x: u16) -> Sum {
        let low = add(self.low, x);
        Sum {
            low,
            high: add(self.high, low),
        }
    }

    fn with_bytes(self, bytes: &[u8]) -> Sum {
        bytes.iter().fold(self, |sum, b| sum.with(*b as u16))
    }

    fn value(self) -> u64 {
        self.high as u64 * 65536 + self.low as u64
    }
}

// Writes the bytes to standard output. Where it takes no more they are lost, as is all that follows, and what the program wrote shows that.
fn show(rt: &impl Print, bytes: &[u8]) {
    let _ = rt.write_all(bytes);
}

// The texts that document 000 prints with their Radix-50 words, against the words that `names` makes of them. The input has a row of
// 31 bytes for each text: nine of text, three times a space and the six octal digits of a word as scanned, blank where there is
// none, and a line feed.

fn octal_digit(n: u16) -> u8 {
    b'0' + (n % 8) as u8
}

fn octal(word: u16) -> [u8; 6]
    ensures { 6 ≡ length result }
{
    let mut digits = [b'0'; 6];
    let mut rest = word;
    for digit in digits.iter_mut().rev() {
        *digit = octal_digit(rest);
        rest /= 8;
    }
    digits
}

// Nine bytes: one, five spaces, and a group of three.
fn text_with(start: u8, group: &[u8]) -> [u8; 9]
    requires { 3 ≡ length group.now }
    ensures { 9 ≡ length result }
{
    let mut text = [b' '; 9];
    text[0] = start;
    text[6..].copy_from_slice(group);
    text
}

// The word of any group. It is taken as an extension, since a name may be neither blank nor go on after a space. A group that no
// extension can be gets the word 0, which doesn't spell it.
fn word_of_group(group: &[u8]) -> u16
    requires { 3 ≡ length group.now }
{
    let text = text_with(b'A', group);
    words_of_text(&text).extension
}

// Whether the word spells the group, after the blanks that two words 0 spell.
fn is_spelled_back(word: u16, group: &[u8]) -> bool
    requires { 3 ≡ length group.now }
{
    text_of_words(0, 0, word).text == text_with(b' ', group)
}

// Writes the formula's word where the scan has one, and answers whether the two agree. What the scan lacks can't differ.
fn show_group(rt: &impl Print, group: &[u8], scanned: &[u8]) -> bool
    requires group_length { 3 ≡ length group.now }
    requires scanned_length { 6 ≡ length scanned.now }
{
    if scanned[0] == b' ' {
        return true;
    }
    let word = word_of_group(group);
    let digits = octal(word);
    show(rt, b" ");
    show(rt, &digits);
    digits.as_slice() == scanned && is_spelled_back(word, group)
}

// All three words are written before any is judged.
fn show_groups(rt: &impl Print, row: &[u8]) -> bool
    requires { 31 ≡ length row.now }
{
    let first = show_group(rt, &row[0..3], &row[10..16]);
    let second = show_group(rt, &row[3..6], &row[17..23]);
    let third = show_group(rt, &row[6..9], &row[24..30]);
    first && second && third
}

fn show_row(rt: &impl Print, row: &[u8])
    requires { 31 ≡ length row.now }
{
    show(rt, &row[0..9]);
    if show_groups(rt, row) {
        show(rt, b" same\n");
    } else {
        show(rt, b" differs\n");
    }
}

// A row that is cut off at the end is not shown, and so the output lacks a line.
fn show_rows(rt: &impl Print, rows: &[u8]) {
    for row in rows.chunks_exact(31) {
        show_row(rt, row);
    }
}

// Three times the rows that document 000 has.
const BUFFER: usize = 4096;

// Shows the rows that the input holds, as far as one buffer takes them.
fn show_input(rt: &impl Print, input: &mut impl Read) {
    let mut bytes = [0u8; BUFFER];
    let n = read_full(input, &mut bytes);
    show_rows(rt, &bytes[..n]);
}

// Each function of `names` over every word, or every text or day of a kind, as a check sum of its answers.

// The words of document 01's first example, DAY CHG; and of DA with a space after it.
const DAY: u16 = 6465;

const CHG: u16 = 5127;

const DA: u16 = 6440;

// The longest name and extension, and the shortest.
const LONGEST: [u8; 9] = *b"AB3CD5XY7";

const SHORTEST: [u8; 9] = *b"A        ";

fn with_spelling(sum: Sum, first: u16, second: u16, extension: u16) -> Sum {
    let spelled = text_of_words(first, second, extension);
    sum.with(spelled.number).with_bytes(&spelled.text)
}

// Every word in each of the three places.
fn words() -> Sum {
    let mut sum = Sum::new();
    for word in 0..=65535 {
        sum = with_spelling(sum, word, DAY, CHG);
        sum = with_spelling(sum, DAY, word, CHG);
        sum = with_spelling(sum, DAY, CHG, word);
    }
    sum
}

fn with_legality(sum: Sum, first: u16, second: u16, extension: u16) -> Sum {
    sum.with(is_legal_name(first, second, extension) as u16)
}

// Every word in each of the three places. The halves of a name depend on each other: the first must be full where the second isn't
// blank, and the second blank where the first has ended. So each half is tried against two of the other.
fn legal() -> Sum {
    let mut sum = Sum::new();
    for word in 0..=65535 {
        sum = with_legality(sum, word, 0, CHG);
        sum = with_legality(sum, word, DAY, CHG);
        sum = with_legality(sum, DAY, word, CHG);
        sum = with_legality(sum, DA, word, CHG);
        sum = with_legality(sum, DAY, 0, word);
    }
    sum
}

fn with_words(sum: Sum, text: &[u8; 9]) -> Sum {
    let words = words_of_text(text);
    sum.with(words.number)
        .with(words.first)
        .with(words.second)
        .with(words.extension)
}

// Every pair of bytes at every two neighbouring places of the base.
fn with_pairs(start: Sum, base: &[u8; 9]) -> Sum {
    let mut sum = start;
    for at in 0..8 {
        let mut text = *base;
        for first in 0..=255 {
            text[at] = first;
            for second in 0..=255 {
                text[at + 1] = second;
                sum = with_words(sum, &text);
            }
        }
    }
    sum
}

fn texts() -> Sum {
    with_pairs(with_pairs(Sum::new(), &LONGEST), &SHORTEST)
}

fn with_day(sum: Sum, word: u16) -> Sum {
    let answer = day_of_word(word);
    sum.with(answer.number)
        .with(answer.day)
        .with(answer.month)
        .with(answer.year)
        .with(is_good_date(word) as u16)
}

// The day of every word, and whether the word is good.
fn days() -> Sum {
    (0..=65535).fold(Sum::new(), with_day)
}

fn with_date(sum: Sum, day: u16, month: u16, year: u16) -> Sum {
    let answer = word_of_day(day, month, year);
    sum.with(answer.number).with(answer.word)
}

// The word of every day, and of days, months and years around the calendar that aren't in it.
fn dates() -> Sum {
    let mut sum = Sum::new();
    for day in 0..=33 {
        for month in 0..=14 {
            for year in 1970..=2106 {
                sum = with_date(sum, day, month, year);
            }
        }
    }
    sum
}

fn show_sum(rt: &impl Print, name: &[u8], sum: Sum) {
    show(rt, name);
    let _ = println!(rt; "{}", sum.value());
}

fn main(rt: HostRuntime) {
    show_input(&rt, &mut rt.reader());
    show_sum(&rt, b"words ", words());
    show_sum(&rt, b"legal ", legal());
    show_sum(&rt, b"texts ", texts());
    show_sum(&rt, b"days ", days());
    show_sum(&rt, b"dates ", dates());
}
