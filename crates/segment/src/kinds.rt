// The kind of a slot, by its status word. This is the one place where a status is held to its number: each kind has its test here, and all
// other code asks these, or `kind_of`, which asks them too.
ghost use Rattle.std.specs.Prelude.{◌≡◌, eqb};
ghost use Rattle.meaning.specs.Kinds.{protected_status, kind_of, is_tentative, is_empty, is_permanent, is_end, is_unknown};

use meaning::{EMPTY, END, Kind, PERMANENT, PROTECTED, TENTATIVE};

// A comparison each, and two for a permanent entry, but no `match` of all: most numbers are powers of two, for which the compiler counts zero
// bits instead, and walks that ask for one kind take longer (docs/DECISIONS.md has the measurement).
pub fn is_tentative(status: u16) -> bool
    ensures { result ≡ is_tentative (kind_of status) }
{
    status == TENTATIVE
}

pub fn is_empty(status: u16) -> bool
    ensures { result ≡ is_empty (kind_of status) }
{
    status == EMPTY
}

// Protected or not.
pub fn is_permanent(status: u16) -> bool
    ensures { result ≡ is_permanent (kind_of status) }
{
    status == PERMANENT || status == PROTECTED
}

pub fn is_protected(status: u16) -> bool
    ensures { result ≡ eqb status protected_status }
{
    status == PROTECTED
}

pub fn is_marker(status: u16) -> bool
    ensures { result ≡ is_end (kind_of status) }
{
    status == END
}

// None of the kinds. Files are asked for first, since most slots are files.
pub fn is_unreadable(status: u16) -> bool
    ensures { result ≡ is_unknown (kind_of status) }
{
    !(is_permanent(status) || is_empty(status) || is_tentative(status) || is_marker(status))
}

// Any number that none of the tests takes is unknown, and rule 4 refuses it before the marker.
pub fn kind_of(status: u16) -> Kind
    ensures { result ≡ kind_of status }
{
    if is_permanent(status) {
        return Kind::Permanent;
    }
    if is_empty(status) {
        return Kind::Empty;
    }
    if is_tentative(status) {
        return Kind::Tentative;
    }
    if is_marker(status) {
        return Kind::End;
    }
    Kind::Unknown
}
