// Rules 1 and 2: the slice has whole segments, and segment 1 says how many of them are in use. Nothing further is read before these
// have passed.
ghost use Rattle.std.specs.Prelude.{◌≡◌, ◌≤◌, length};
ghost use Rattle.meaning.specs.Sound.{bad2};
ghost use Rattle.chain.specs.Head.{size_wrong};

// Rule 1, of the slice's length alone: no word can be read before it has passed. `v` is wider than 16 bits, so that a volume of
// more than 65,535 blocks is refused and not reduced.
pub fn size_wrong(v: usize, len: usize) -> bool
    ensures { result ≡ size_wrong v len }
{
    let segments = len / 512;
    segments < 1 || 31 < segments || len != 512 * segments || v < 6 + 2 * segments || 65535 < v
}

// Rule 2, of segment 1's words. Four words are enough to ask, so that it asks for no more of rule 1 than it needs.
pub fn head_wrong(d: &[u16]) -> bool
    requires { 4 ≤ length d.now }
    ensures { result ≡ bad2 d.now }
{
    let segments = d.len() / 512;
    let highest = d[2] as usize;
    let extra_bytes = d[3];
    d[0] as usize != segments
        || highest < 1
        || segments < highest
        || extra_bytes % 2 != 0
        || 32 < extra_bytes
}
