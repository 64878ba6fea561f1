// The segments of the chain mended, each read in one directory and put into another of the same size.
ghost use Rattle.std.specs.Prelude.{◌≡◌, ◌*◌, ◌≤◌, length};
ghost use Rattle.meaning.specs.Words.{first_data, chain};
ghost use Rattle.chain.specs.Chained.{Chained};
ghost use Rattle.repaired.specs.Tool.{mended};
ghost use Rattle.mending.specs.Mending.{RenewedIn};

use crate::LaidTo;
use crate::slots::mend_segment;

// The segment of this number, copied from `d` into `t` and mended there.
fn renew_segment<'a>(
    d: &[u16],
    t: &mut [u16],
    number: usize,
    width: usize,
    v: usize,
    start: LaidTo<'a>,
) -> LaidTo<'a>
    requires { (length t.old ≡ length d.now) × (512 * number ≤ length d.now) × (1 ≤ number) × (number ≤ 31) × (7 ≤ width) × (width ≤ 23)
        × (v ≤ 65535) × (start.block ≤ 65535) }
    ensures { RenewedIn v width start.entry number d.now t.old t.new result }
{
    let first = 512 * (number - 1);
    let end = first + 512;
    let copy = &mut t[first..end];
    copy.copy_from_slice(&d[first..end]);
    mend_segment(copy, width, v, start)
}

// Every segment of the chain of `d`, mended and put into `t`. What is read is never written, so that no segment of `t` needs to be as it was.
// `firsts` are the first blocks that the files are to keep, in the order in which they are dealt out.
pub fn mend_all(d: &[u16], t: &mut [u16], v: usize, firsts: &[usize])
    requires { Chained d.now × (length t.old ≡ length d.now) × (v ≤ 65535) × (first_data d.now ≤ v) }
    ensures { t.new ≡ mended v (first_data d.now) firsts.now d.now t.old
        (chain d.now) }
{
    let width = 7 + (d[3] / 2) as usize;
    let mut number: usize = 1;
    let mut start = LaidTo {
        block: 6 + 2 * (d.len() / 512),
        firsts,
    };
    for _ in 0..d[2] {
        let laid = renew_segment(d, t, number, width, v, start);
        start = LaidTo {
            block: v.min(laid.block),
            firsts: laid.firsts,
        };
        number = d[512 * (number - 1) + 1] as usize;
    }
}
