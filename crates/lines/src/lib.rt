// The pieces of the listing's text, each written into lent room from the place `at` on. Each answers the place after its bytes, and
// asks for the room of the longest text that it can be. Room and place go beside one another, and there is no Vec, since the project takes no
// memory from a heap. No number of a volume is above 65,535, so that five digits are enough.
#![tactic(auto)]

ghost use Rattle.std.specs.Prelude.{◌≡◌, ◌+◌, ◌≤◌, ◌<◌, [], ◌∷◌, ◌++◌, length};
ghost use Rattle.meaning.specs.Kinds.{is_empty};
ghost use Rattle.meaning.specs.Listing.{decimal, six_wide, two_digits, date_text, letter, refused_line};
ghost use Rattle.lines.specs.Wrote.{Wrote, WroteAtMost};
ghost use Rattle.lines.specs.Pieces.{dotted, name_by, row_start, row_date, row_end, row_by, head_by, total_by, label_by};
ghost use Rattle.lines.specs.Bounds.{Spelled};

use meaning::Kind;

// Any bytes, as they are.
pub fn put_bytes(out: &mut [u8], at: usize, text: &[u8]) -> usize
    requires { at + length text.now ≤ length out.old }
    ensures { Wrote out.old at text.now out.new result }
{
    let end = at + text.len();
    out[at..end].copy_from_slice(text);
    end
}

// A number in decimal: the digits before its last one are those of its tenth, so that they come out first.
fn decimal(out: &mut [u8], at: usize, n: usize) -> usize
    requires { (n ≤ 65535) × (at + 5 ≤ length out.old) }
    ensures { WroteAtMost 5 out.old at (decimal n) out.new result }
{
    let digit = b'0' + (n % 10) as u8;
    if n < 10 {
        out[at] = digit;
        return at + 1;
    }
    let next = decimal(out, at, n / 10);
    out[next] = digit;
    next + 1
}

// A number six wide: the last six bytes of six spaces and the number, so that no space is counted.
pub fn six_wide(out: &mut [u8], at: usize, n: usize) -> usize
    requires { (n ≤ 65535) × (at + 6 ≤ length out.old) }
    ensures { WroteAtMost 6 out.old at (six_wide n) out.new result }
{
    let mut text = [b' '; 11];
    let end = decimal(&mut text, 6, n);
    let start = end - 6;
    put_bytes(out, at, &text[start..end])
}

// A day or a month in two digits, with a zero before it where it has one.
fn two_digits(out: &mut [u8], at: usize, n: u16) -> usize
    requires { (n < 100) × (at + 2 ≤ length out.old) }
    ensures { WroteAtMost 2 out.old at (two_digits n) out.new result }
{
    out[at] = b'0' + (n / 10) as u8;
    out[at + 1] = b'0' + (n % 10) as u8;
    at + 2
}

// A date word as 15-03-1976, or ten hyphens: a word that names no day is read as day 0, which no calendar day is. The year is lent
// the room of any number, a byte more than it takes.
fn date_text(out: &mut [u8], at: usize, word: u16) -> usize
    requires { at + 11 ≤ length out.old }
    ensures { WroteAtMost 10 out.old at (date_text word) out.new result }
{
    let date = dates::day_of_word(word);
    if date.day == 0 {
        return put_bytes(out, at, b"----------");
    }
    let month = two_digits(out, at, date.day);
    out[month] = b'-';
    let year = two_digits(out, month + 1, date.month);
    out[year] = b'-';
    decimal(out, year + 1, date.year as usize)
}

// Nine characters with a dot after the sixth.
fn dotted(out: &mut [u8], at: usize, text: &[u8]) -> usize
    requires { (length text.now ≡ 9) × (at + 10 ≤ length out.old) }
    ensures { WroteAtMost 10 out.old at (dotted text.now) out.new result }
{
    let dot = put_bytes(out, at, &text[0..6]);
    out[dot] = b'.';
    put_bytes(out, dot + 1, &text[6..9])
}

// The name that three words spell: six characters, a dot, and the extension.
fn name_text(out: &mut [u8], at: usize, a: u16, b: u16, c: u16) -> usize
    requires { (a ≤ 63999) × (b ≤ 63999) × (c ≤ 63999) × (at + 10 ≤ length out.old) }
    ensures { WroteAtMost 10 out.old at (name_by a b c) out.new result }
{
    let spelled = names::text_of_words(a, b, c);
    let text = spelled.text;
    dotted(out, at, &text)
}

// The letter of a kind. A marker and an unknown status have no row, and so no letter.
fn letter(out: &mut [u8], at: usize, kind: Kind) -> usize
    requires { at + 1 ≤ length out.old }
    ensures { WroteAtMost 1 out.old at (letter kind) out.new result }
{
    out[at] = match kind {
        Kind::Tentative => b'T',
        Kind::Empty => b'E',
        Kind::Permanent => b'P',
        Kind::End | Kind::Unknown => return at,
    };
    at + 1
}

// Whether a kind is that of an empty entry.
fn is_empty(kind: Kind) -> bool
    ensures { result ≡ is_empty kind }
{
    matches!(kind, Kind::Empty)
}

// A row's beginning: the letter of the kind, and the name. That of an empty entry is ten dots, since its name words may be any.
fn row_start(out: &mut [u8], at: usize, kind: Kind, a: u16, b: u16, c: u16) -> usize
    requires { Spelled kind a b c × (at + 12 ≤ length out.old) }
    ensures { WroteAtMost 12 out.old at (row_start kind a b c) out.new result }
{
    let space = letter(out, at, kind);
    out[space] = b' ';
    if is_empty(kind) {
        return put_bytes(out, space + 1, b"..........");
    }
    name_text(out, space + 1, a, b, c)
}

// The date word that a row shows: that of no date for an empty entry.
fn row_date(kind: Kind, date: u16) -> u16
    ensures { result ≡ row_date kind date }
{
    if is_empty(kind) { 0 } else { date }
}

// A row's end: the date, and the line feed.
fn row_end(out: &mut [u8], at: usize, kind: Kind, date: u16) -> usize
    requires { at + 12 ≤ length out.old }
    ensures { WroteAtMost 12 out.old at (row_end kind date) out.new result }
{
    out[at] = b' ';
    let next = date_text(out, at + 1, row_date(kind, date));
    out[next] = b'\n';
    next + 1
}

// The row of an entry, by its kind, name words, first block, length and date word.
pub fn row_text(
    out: &mut [u8],
    at: usize,
    kind: Kind,
    a: u16,
    b: u16,
    c: u16,
    first: usize,
    blocks: u16,
    date: u16,
) -> usize
    requires { Spelled kind a b c × (first ≤ 65535) × (at + 36 ≤ length out.old) }
    ensures { WroteAtMost 36 out.old at (row_by kind a b c first blocks date) out.new result }
{
    let mut next = row_start(out, at, kind, a, b, c);
    next = six_wide(out, next, first);
    next = six_wide(out, next, blocks as usize);
    row_end(out, next, kind, date)
}

// A caption and its number, of which the lines without a row are made.
fn captioned(out: &mut [u8], at: usize, caption: &[u8], n: usize) -> usize
    requires { (n ≤ 65535) × (at + (length caption.now + 5) ≤ length out.old) }
    ensures { WroteAtMost (length caption.now + 5) out.old at (caption.now ++ decimal n) out.new result }
{
    let next = put_bytes(out, at, caption);
    decimal(out, next, n)
}

// The first line: V, the segments in use of all, and the extra bytes of an entry.
pub fn head_line(
    out: &mut [u8],
    at: usize,
    v: usize,
    highest: usize,
    segments: usize,
    extra: usize,
) -> usize
    requires { (v ≤ 65535) × (highest ≤ 65535) × (segments ≤ 65535) × (extra ≤ 65535) × (at + 49 ≤ length out.old) }
    ensures { WroteAtMost 49 out.old at (head_by v highest segments extra) out.new result }
{
    let mut next = captioned(out, at, b"VOLUME ", v);
    next = captioned(out, next, b" SEGMENTS ", highest);
    next = captioned(out, next, b" OF ", segments);
    next = captioned(out, next, b" EXTRA ", extra);
    out[next] = b'\n';
    next + 1
}

// The last line: the blocks of permanent, tentative and empty entries.
pub fn total_line(out: &mut [u8], at: usize, files: usize, opened: usize, free: usize) -> usize
    requires { (files ≤ 65535) × (opened ≤ 65535) × (free ≤ 65535) × (at + 34 ≤ length out.old) }
    ensures { WroteAtMost 34 out.old at (total_by files opened free) out.new result }
{
    let mut next = captioned(out, at, b"FILES ", files);
    next = captioned(out, next, b" OPEN ", opened);
    next = captioned(out, next, b" FREE ", free);
    out[next] = b'\n';
    next + 1
}

// Any bytes, and one after them.
fn put_ended(out: &mut [u8], at: usize, text: &[u8], end: u8) -> usize
    requires { at + (length text.now + 1) ≤ length out.old }
    ensures { WroteAtMost (length text.now + 1) out.old at (text.now ++ (end ∷ [])) out.new result }
{
    let next = put_bytes(out, at, text);
    out[next] = end;
    next + 1
}

// The line of a label: name and owner as they are, with the blanks at their ends; or that there is none.
pub fn label_line(
    out: &mut [u8],
    at: usize,
    labelled: bool,
    name: [u8; 12],
    owner: [u8; 12],
) -> usize
    requires { at + 32 ≤ length out.old }
    ensures { WroteAtMost 32 out.old at (label_by labelled name owner) out.new result }
{
    if !labelled {
        return put_bytes(out, at, b"UNLABELLED\n");
    }
    let mut next = put_bytes(out, at, b"LABEL ");
    next = put_ended(out, next, &name, b' ');
    put_ended(out, next, &owner, b'\n')
}

// The one line of a refusal.
pub fn refused_line(out: &mut [u8], at: usize, n: usize) -> usize
    requires { (n ≤ 65535) × (at + 14 ≤ length out.old) }
    ensures { WroteAtMost 14 out.old at (refused_line n) out.new result }
{
    let next = captioned(out, at, b"REFUSED ", n);
    out[next] = b'\n';
    next + 1
}
