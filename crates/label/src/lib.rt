// Block 1 of a volume (document 02, Req 01): the volume's label, read and written. Nothing here knows of directories.
#![tactic(auto)]

ghost use Rattle.std.specs.Prelude.{◌≡◌, ◌+◌, ◌≤◌, length};
ghost use Rattle.label.specs.Labels.{twelve_at, are_label_bytes, without_label, label_of, labelled_with, write_number, written};

// What block 1 says: number 0, or 25; whether it has the system's mark; and name and owner, which are blanks where it says none.
// A number and a flag, and no Option in a Result: docs/MANUAL.md answers by these four fields, and the theorems `writer_laws` and
// `reader_laws` of proofs/Laws.antt speak of them.
#[derive(Clone, Copy)]
pub struct Label {
    pub number: u16,
    pub labelled: bool,
    pub name: [u8; 12],
    pub owner: [u8; 12],
}

// Name, owner and mark stand one after the other, at octal 730, 744 and 760.
const NAME: usize = 0o730;

const OWNER: usize = 0o744;

const MARK: usize = 0o760;

const SYSTEM_MARK: [u8; 12] = *b"DECRT11A    ";

// The answer where there is no label to give.
#[tactic(auto, unfolding(crate::specs::Labels::without_label))]
fn no_label(number: u16) -> Label
    ensures { result ≡ without_label number }
{
    Label {
        number,
        labelled: false,
        name: [b' '; 12],
        owner: [b' '; 12],
    }
}

// Whether each byte may stand in a label.
fn are_label_bytes(bytes: &[u8]) -> bool
    ensures { result ≡ are_label_bytes bytes.now }
{
    bytes.iter().all(|b| (32..=126).contains(b))
}

// Block and place, and no slice of the part: that would only write `at..at + 12` at both calls.
fn twelve_at(block: &[u8], at: usize) -> [u8; 12]
    requires { at + 12 ≤ length block.now }
    ensures { result ≡ twelve_at at block.now }
{
    let mut bytes = [b' '; 12];
    bytes.copy_from_slice(&block[at..at + 12]);
    bytes
}

// The label of a block. Without the mark it has none, whatever bytes stand there.
pub fn read_label(block: &[u8]) -> Label
    ensures { result ≡ label_of block.now }
{
    if block.len() != 512 {
        return no_label(25);
    }
    if !names::same_bytes(&block[MARK..MARK + 12], &SYSTEM_MARK) {
        return no_label(0);
    }
    if !are_label_bytes(&block[NAME..NAME + 24]) {
        return no_label(25);
    }
    Label {
        number: 0,
        labelled: true,
        name: twelve_at(block, NAME),
        owner: twelve_at(block, OWNER),
    }
}

// A name, an owner and the mark put in their places; every other byte stays.
fn put_label(block: &mut [u8], name: [u8; 12], owner: [u8; 12])
    requires { length block.old ≡ 512 }
    ensures { block.new ≡ labelled_with name owner block.old }
{
    block[NAME..NAME + 12].copy_from_slice(&name);
    block[OWNER..OWNER + 12].copy_from_slice(&owner);
    block[MARK..MARK + 12].copy_from_slice(&SYSTEM_MARK);
}

// Writes a label: 0, or 25 and nothing changed. A number and no Result: docs/MANUAL.md answers by it, and the theorem `writer_laws` of
// proofs/Laws.antt speaks of it.
#[tactic(auto, unfolding(crate::specs::Labels::is_writable, crate::specs::Labels::is_block, crate::specs::Labels::is_label, crate::specs::Labels::write_number, crate::specs::Labels::written))]
pub fn write_label(block: &mut [u8], name: [u8; 12], owner: [u8; 12]) -> u16
    ensures { (result ≡ write_number block.old name owner) × (block.new ≡ written block.old name owner) }
{
    if block.len() != 512 || !are_label_bytes(&name) || !are_label_bytes(&owner) {
        return 25;
    }
    put_label(block, name, owner);
    0
}
