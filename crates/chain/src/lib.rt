// The chain: rule 3, which follows the links, and rules 4 and 5 in one walk along them.
#![tactic(auto)]

pub mod fault;
pub mod head;

ghost use Rattle.std.specs.Prelude.{◌≡◌, ◌*◌, ◌≤◌, length};
ghost use Rattle.meaning.specs.Words.{highest};
ghost use Rattle.walks.specs.Links.{linked};
ghost use Rattle.chain.specs.Chained.{Chained};
ghost use Rattle.chain.specs.Measure.{measure_of};
ghost use Rattle.chain.specs.Told.{told};

use crate::fault::Fault;
use segment::scan::scan_slots;

// Rule 3. Exactly H links are followed, so that a loop in the chain can't hold the walk; and where the last of them gives 0 no
// segment came twice, so that none needs to be marked.
pub fn links_right(d: &[u16]) -> bool
    requires { (512 ≤ length d.now) × (512 * highest d.now ≤ length d.now) }
    ensures { result ≡ linked (highest d.now) d.now 1 }
{
    let total = d[0];
    let highest = d[2] as usize;
    let extra_bytes = d[3];
    let mut segment: usize = 1;
    for _ in 0..highest {
        if segment < 1 || highest < segment {
            return false;
        }
        let base = 512 * (segment - 1);
        if d[base] != total || d[base + 3] != extra_bytes {
            return false;
        }
        segment = d[base + 1] as usize;
    }
    segment == 0
}

// Rules 4 and 5. A segment that begins at a wrong block breaks rule 5, but doesn't end the walk, since a fault by rule 4 further on comes
// first. Blocks are summed in a usize: 31 segments of 507 lengths fit, and nothing is reduced by 65,536.
pub fn measure(d: &[u16], v: usize) -> Result<(), Fault>
    requires { Chained d.now }
    ensures { told result ≡ measure_of v d.now }
{
    let width = 7 + (d[3] / 2) as usize;
    let mut segment: usize = 1;
    let mut block: usize = 6 + 2 * (d.len() / 512);
    let mut joined = true;
    for _ in 0..d[2] {
        let base = 512 * (segment - 1);
        let words = &d[base..base + 512];
        let Some(sum) = scan_slots(words, width) else {
            return Err(Fault::Slots);
        };
        joined = joined && words[4] as usize == block;
        block += sum.blocks;
        segment = words[1] as usize;
    }
    if joined && block == v {
        Ok(())
    } else {
        Err(Fault::Blocks)
    }
}
