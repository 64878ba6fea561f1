// The size that an enter asks for, and how many blocks it comes to.
ghost use Rattle.std.specs.Prelude.{◌≡◌};
ghost use Rattle.meaning.specs.Enter.{size_of, at_least};
ghost use Rattle.choice.specs.Asks.{size_by, asked_by, wanted_by};

// What a size asks for: -1 the longest eligible area, 0 RT-11's default, 1 to 65,535 exactly so many blocks.
// Signed numbers end here: behind this enum every length is unsigned.
#[derive(Clone, Copy, PartialEq, Eq)]
pub enum Asked {
    Longest,
    Default,
    Exact(u16),
}

// What this size asks for; nothing where it is wrong, which is the half of refusal 9 that speaks of sizes.
pub fn size_of(size: i32) -> Option<Asked>
    ensures { asked_by result ≡ size_of size }
{
    if size == -1 {
        return Some(Asked::Longest);
    }
    match u16::try_from(size) {
        Ok(0) => Some(Asked::Default),
        Ok(blocks) => Some(Asked::Exact(blocks)),
        Err(_) => None,
    }
}

// The length that an area must have at least, for refusals 11 and 12. What a default comes to is known only where some area has
// room, so both sizes that name no number ask for one block.
pub fn at_least(asked: Asked) -> usize
    ensures { result ≡ at_least (size_by asked) }
{
    match asked {
        Asked::Longest | Asked::Default => 1,
        Asked::Exact(blocks) => blocks as usize,
    }
}

// How many blocks the size comes to, where the longest and the second longest eligible area are known. A half is rounded up.
pub fn wanted_of(asked: Asked, longest: u16, second: u16) -> u16
    ensures { result ≡ wanted_by (size_by asked) longest second }
{
    match asked {
        Asked::Longest => longest,
        Asked::Default => longest.div_ceil(2).max(second),
        Asked::Exact(blocks) => blocks,
    }
}
