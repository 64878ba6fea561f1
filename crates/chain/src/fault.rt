// What can be wrong with a directory: the rule that it breaks, of the six.
ghost use Rattle.std.specs.Prelude.{◌≡◌};
ghost use Rattle.chain.specs.Told.{number_of};

#[derive(Clone, Copy, PartialEq, Eq)]
pub enum Fault {
    Size,
    Header,
    Links,
    Slots,
    Blocks,
    Clash,
}

// The number by which a user knows a fault.
impl From<Fault> for u16 {
    ghost from_gives = { λ f n. n ≡ number_of f };

    fn from(fault: Fault) -> u16 {
        match fault {
            Fault::Size => 1,
            Fault::Header => 2,
            Fault::Links => 3,
            Fault::Slots => 4,
            Fault::Blocks => 5,
            Fault::Clash => 6,
        }
    }
}
