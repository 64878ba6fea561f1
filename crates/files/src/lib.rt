// The requests on a permanent file, by its name, on a directory known to be sound: lookup, delete, rename, protect and unprotect. Each is
// refused, in the order of the numbers from 7 on (but for 19, which comes straight after 7, and 20, straight after 13), or carried out. A
// refusal changes no word.
#![tactic(auto)]

ghost use Rattle.std.specs.Prelude.{◌≡◌};
ghost use Rattle.meaning.specs.Sound.{fault};
ghost use Rattle.meaning.specs.Answers.{Meets};
ghost use Rattle.meaning.specs.Told.{told};
ghost use Rattle.meaning.specs.Requests.{legal, lookup, delete, restate, rename};
ghost use Rattle.files.specs.Unprotected.{NameTested};

use edits::change::{give_name, give_status};
use find::find_entry;
use find::found::{granted, restate_found};
use meaning::{EMPTY, Granted, Key, Name, Refusal, is_spared};
use names::is_legal_name;
use segment::kinds::is_protected;

// Whether this is a requested name.
pub fn is_legal(name: Name) -> bool
    ensures { result ≡ legal name }
{
    is_legal_name(name.first, name.second, name.extension)
}

// What a name must be for a request that is not for FILE.BAD.
#[tactic(auto, unfolding(crate::specs::Unprotected::name_refusal))]
pub fn check_name(name: Name) -> Result<(), Refusal>
    ensures { NameTested result name }
{
    if !is_legal(name) {
        return Err(Refusal::IllegalName);
    }
    if is_spared(name) {
        return Err(Refusal::SparedName);
    }
    Ok(())
}

// The permanent file of a name.
pub fn lookup_sound(d: &[u16], v: usize, name: Name) -> Result<Granted, Refusal>
    requires { fault v d.now ≡ 0 }
    ensures { told result ≡ (lookup v d.now name).answer }
{
    if !is_legal(name) {
        return Err(Refusal::IllegalName);
    }
    let place = find_entry(d, Key::File(name)).ok_or(Refusal::NoFile)?;
    Ok(granted(place))
}

// The entry of the name becomes empty, unless it is protected.
pub fn delete_sound(d: &mut [u16], v: usize, name: Name) -> Result<Granted, Refusal>
    requires { fault v d.old ≡ 0 }
    ensures { Meets (told result) d.new (delete v d.old name) }
{
    check_name(name)?;
    let file = find_entry(d, Key::File(name)).ok_or(Refusal::NoFile)?;
    if is_protected(file.status) {
        return Err(Refusal::ProtectedFile);
    }
    give_status(d, file.at, EMPTY);
    Ok(granted(file))
}

// Protect and unprotect: the file's status word becomes this one.
pub fn restate_sound(d: &mut [u16], v: usize, name: Name, status: u16) -> Result<Granted, Refusal>
    requires { fault v d.old ≡ 0 }
    ensures { Meets (told result) d.new (restate v d.old name status) }
{
    check_name(name)?;
    restate_found(d, v, Key::File(name), Refusal::NoFile, status)
}

// The entry of the old name gets the new one, unless it is protected or a file has that already. The new name is looked for only where the
// old one is found.
pub fn rename_sound(d: &mut [u16], v: usize, old: Name, new: Name) -> Result<Granted, Refusal>
    requires { fault v d.old ≡ 0 }
    ensures { Meets (told result) d.new (rename v d.old old new) }
{
    if !is_legal(old) || !is_legal(new) {
        return Err(Refusal::IllegalName);
    }
    if is_spared(old) || is_spared(new) {
        return Err(Refusal::SparedName);
    }
    let place = find_entry(d, Key::File(old)).ok_or(Refusal::NoFile)?;
    if is_protected(place.status) {
        return Err(Refusal::ProtectedFile);
    }
    if find_entry(d, Key::File(new)).is_some() {
        return Err(Refusal::NameTaken);
    }
    give_name(d, place.at, new);
    Ok(granted(place))
}
