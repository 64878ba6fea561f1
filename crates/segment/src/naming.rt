// The name of an entry, compared with another: the one place where code does so.
ghost use Rattle.std.specs.Prelude.{◌≡◌};
ghost use Rattle.meaning.specs.Words.{name_of, same_name};

use crate::entry::Entry;
use meaning::Name;

// Whether an entry has this name. The first word that differs decides.
pub fn is_named(entry: &Entry<'_>, name: Name) -> bool
    ensures { result ≡ same_name (name_of entry.now.words.now) name }
{
    entry.name() == name
}
