// The entries of a lock that no package needs.
ghost use Rattle.std.specs.Prelude.{◌≡◌, ◌++◌, ◌∷◌, [], IfOk, OnOk, if◌then◌else◌};
ghost use Rattle.lock_audit.specs.Entries.{unused_entries, unused_of};

use crate::Unused;
use crate::names::{is_named, names_of};
use pnp_core::Manifest;
use std::alloc::{AllocError, Global};
use sugar_path::{List, Text};
use yarn_lock_parser::{Entry, Lockfile};

// The entries that name no package of a manifest, in the lock's order.
pub(crate) fn unused_entries(
    alloc: Global,
    lock: &Lockfile<'_>,
    manifest: &Manifest,
) -> Result<List<Unused>, AllocError>
    ensures { IfOk result (λ unused. unused ≡ unused_entries lock.now manifest.now) }
{
    let names = names_of(alloc, manifest)?;
    let entries = lock.entries();
    let mut unused = Vec::new(alloc);
    for entry in entries {
        let named = is_named(&names, lock.version(), entry);
        put_unless_named(alloc, &mut unused, entry, named)?;
    }
    Ok(List::from(unused))
}

// Puts an entry at the end, unless it names a package.
fn put_unless_named(
    alloc: Global,
    unused: &mut Vec<Unused>,
    entry: &Entry<'_>,
    named: bool,
) -> Result<(), AllocError>
    ensures { OnOk result (unused.new.items
        ≡ (if named then unused.old.items else unused.old.items ++ unused_of entry.now ∷ [])) }
{
    if named {
        return Ok(());
    }
    unused.push(unused_of(alloc, entry)?)?;
    Ok(())
}

// What is told of an entry.
fn unused_of(alloc: Global, entry: &Entry<'_>) -> Result<Unused, AllocError>
    ensures { IfOk result (λ unused. unused ≡ unused_of entry.now) }
{
    Ok(Unused {
        name: Text::of(alloc, entry.name())?,
        resolved: Text::of(alloc, entry.resolved())?,
    })
}
