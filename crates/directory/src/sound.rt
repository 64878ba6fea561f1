// The soundness check: rules 1 to 6 in order, and the smallest number.
ghost use Rattle.std.specs.Prelude.{◌≡◌};
ghost use Rattle.meaning.specs.Sound.{fault};
ghost use Rattle.chain.specs.Told.{told};

use crate::clashes;
use chain::fault::Fault;
use chain::head;

// The first rule that is broken, if any. Nothing is asked of the words or of V: each test presumes those before it, and so no word is read
// that isn't there.
fn check(d: &[u16], v: usize) -> Result<(), Fault>
    ensures { told result ≡ fault v d.now }
{
    if head::size_wrong(v, d.len()) {
        return Err(Fault::Size);
    }
    if head::head_wrong(d) {
        return Err(Fault::Header);
    }
    if !chain::links_right(d) {
        return Err(Fault::Links);
    }
    chain::measure(d, v)?;
    if clashes::entries_clash(d) {
        return Err(Fault::Clash);
    }
    Ok(())
}

// The number of that rule, by which the callers of an entry routine know it; 0 where the directory is sound.
pub fn fault_of(d: &[u16], v: usize) -> u16
    ensures { result ≡ fault v d.now }
{
    match check(d, v) {
        Ok(()) => 0,
        Err(fault) => fault.into(),
    }
}
