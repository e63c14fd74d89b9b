// Which entry of a lock names a package.
ghost use Rattle.std.specs.Prelude.{◌≡◌, ◌++◌, bytes_eq, codes};
ghost use Rattle.lock_checks.specs.Naming.{names_locator};

use crate::reference::plain_reference;
use pnp_core::PackageLocator;
use sugar_path::after;
use yarn_lock_parser::Entry;

/// Whether an entry of a lock of this version names a package. It takes no memory.
pub fn names_locator(entry: &Entry<'_>, version: u8, locator: &PackageLocator) -> bool
    ensures { result ≡ names_locator entry.now version locator.now }
{
    let name = locator.name.as_str();
    let reference = plain_reference(locator.reference.as_str());
    if is_resolution(entry.resolved(), name, reference) {
        return true;
    }
    version == 1 && entry.name() == name && is_release(reference, entry.version())
}

// Whether a text is a name, `@` and a reference.
fn is_resolution(text: &str, name: &str, reference: &str) -> bool
    ensures { result ≡ bytes_eq text.now (name.now ++ codes "@" ++ reference.now) }
{
    match after(name, text) {
        Some(rest) => is_joined(rest, "@", reference),
        None => false,
    }
}

// Whether a reference is that of a version in npm's registry.
fn is_release(reference: &str, version: &str) -> bool
    ensures { result ≡ bytes_eq reference.now (codes "npm:" ++ version.now) }
{
    is_joined(reference, "npm:", version)
}

// Whether a text is these two, one behind the other.
fn is_joined(text: &str, front: &str, rest: &str) -> bool
    ensures { result ≡ bytes_eq text.now (front.now ++ rest.now) }
{
    match after(front, text) {
        Some(behind) => behind == rest,
        None => false,
    }
}
