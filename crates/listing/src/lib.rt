// The listing (document 01, "The listing"; document 02, Req 01): a head file's bytes in, its text out.
#![tactic(auto)]

mod head;
mod words;

ghost use Rattle.std.specs.Prelude.{◌≡◌, true, ◌+◌, ◌≤◌, length};
ghost use Rattle.meaning.specs.Sound.{fault};
ghost use Rattle.meaning.specs.Listing.{sound_text, text_by, listing};
ghost use Rattle.lines.specs.Wrote.{WroteAtMost};
ghost use Rattle.listing.specs.HeadFiles.{good_second, labelled_text, second_listing};
ghost use Rattle.listing.specs.Listed.{Listed};

use directory::sound;
use label::Label;

// The longest listing: 32 bytes for the label's line, 49 for the volume's, 79,236 for the rows, 34 for the last line.
pub const ROOM: usize = 79351;

// The listing of a sound directory, from a place on.
fn list_sound(out: &mut [u8], at: usize, d: &[u16], v: usize) -> usize
    requires { (fault v d.now ≡ 0) × (at + 79319 ≤ length out.old) }
    ensures { WroteAtMost 79319 out.old at (sound_text v d.now) out.new result }
{
    let mut next = lines::head_line(out, at, v, d[2] as usize, d.len() / 512, d[3] as usize);
    next = rows::put_rows(out, next, d);
    let totals = rows::total_blocks(d);
    lines::total_line(out, next, totals.files, totals.opened, totals.free)
}

// The listing of any words: that of a sound directory, or the line of the fault's number.
fn list_words(out: &mut [u8], d: &[u16], v: usize) -> usize
    requires { 79319 ≤ length out.old }
    ensures { WroteAtMost 79319 out.old 0 (text_by (fault v d.now) v d.now) out.new result }
{
    let number = sound::fault_of(d, v);
    if number != 0 {
        return lines::refused_line(out, 0, number as usize);
    }
    list_sound(out, 0, d, v)
}

// The same after a label.
fn list_labelled(out: &mut [u8], label: Label, d: &[u16], v: usize) -> usize
    requires { 79351 ≤ length out.old }
    ensures { WroteAtMost 79351 out.old 0 (labelled_text (fault v d.now) label v d.now) out.new result }
{
    let number = sound::fault_of(d, v);
    if number != 0 {
        return lines::refused_line(out, 0, number as usize);
    }
    let name = label.name;
    let owner = label.owner;
    let next = lines::label_line(out, 0, label.labelled, name, owner);
    list_sound(out, next, d, v)
}

// The listing of a head file of version 1, or of any that is refused 17.
fn list_first(out: &mut [u8], file: &[u8]) -> usize
    requires { 79319 ≤ length out.old }
    ensures { WroteAtMost 79319 out.old 0 (listing file.now) out.new result }
{
    if !head::good_head(file, 1, 7) {
        return lines::refused_line(out, 0, 17);
    }
    let v = head::volume_in(file);
    let mut words = [0u16; 15872];
    let count = words::load_words(file, 7, &mut words);
    list_words(out, &words[..count], v)
}

// The listing of a good head file of version 2.
fn list_second(out: &mut [u8], file: &[u8]) -> usize
    requires { (good_second file.now ≡ true) × (79351 ≤ length out.old) }
    ensures { WroteAtMost 79351 out.old 0 (second_listing file.now) out.new result }
{
    let label = label::read_label(&file[7..519]);
    if label.number != 0 {
        return lines::refused_line(out, 0, label.number as usize);
    }
    let v = head::volume_in(file);
    let mut words = [0u16; 15872];
    let count = words::load_words(file, 519, &mut words);
    list_labelled(out, label, &words[..count], v)
}

// The listing of a file, from the first byte of the lent room on. Answers how many bytes it is; the lent rest stays as it was.
pub fn listing(file: &[u8], out: &mut [u8; ROOM]) -> usize
    ensures { Listed file.now out.old out.new result }
{
    if head::good_head(file, 2, 519) {
        return list_second(out, file);
    }
    list_first(out, file)
}
