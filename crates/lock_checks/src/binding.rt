// The checks of a binding.
ghost use Rattle.std.specs.Prelude.{◌≡◌, IfOk, Some};
ghost use Rattle.std.specs.Option.{option_copied};
ghost use Rattle.pnp_core.specs.Manifest.{location_of};
ghost use Rattle.tree_core.specs.Asks.{Asks};
ghost use Rattle.tree_core.specs.Resolving.{Resolves};
ghost use Rattle.lock_checks.specs.Borrowed.{borrowed};
ghost use Rattle.lock_checks.specs.Checks.{check_by, checked_location, lock_check, range_check};
ghost use Rattle.lock_checks.specs.Fault.{binding_fault};

use crate::range::{declared_range, location_of, within};
use crate::reference::{is_npm, is_workspace};
use crate::{Edge, EdgeFault, Lock};
use package_readings::PackageReadings;
use std::alloc::Global;
use tree_core::{Asker, ReadError, ResolveError};
use yarn_lock_parser::Entry;

/// Why a binding is refused, if it is: the bound package has no row, or the lock doesn't allow it.
pub fn check_binding<R: Asker>(
    alloc: Global,
    tree: &mut R,
    packages: &mut PackageReadings,
    lock: Option<&Lock<'_>>,
    edge: &Edge<'_>,
) -> Result<Option<EdgeFault>, ReadError>
    ensures { Asks (R.asking tree.old) (R.asking tree.new) result
        (binding_fault (option_copied lock.entry) edge.now.manifest.now edge.now.owner.now
        edge.now.name.now edge.now.bound.now) }
{
    match checked_location(alloc, tree, packages, lock, edge) {
        Ok(_) => Ok(None),
        Err(error) => Ok(Some(error.refusal()?)),
    }
}

/// The location of the bound package, where no check refuses the binding.
pub fn checked_location<'m, R: Asker>(
    alloc: Global,
    tree: &mut R,
    packages: &mut PackageReadings,
    lock: Option<&Lock<'_>>,
    edge: &Edge<'m>,
) -> Result<&'m str, ResolveError<EdgeFault>>
    ensures asks { Resolves (R.asking tree.old) (R.asking tree.new) (borrowed result)
        (checked_location (option_copied lock.entry) edge.now.manifest.now edge.now.owner.now
        edge.now.name.now edge.now.bound.now) }
    ensures row { IfOk result (λ location.
        location_of edge.now.manifest.now edge.now.bound.now ≡ Some location.now) }
{
    let Some(location) = location_of(edge.manifest, edge.bound) else {
        return Err(ResolveError::Refused(EdgeFault::NotInRegistry));
    };
    check_by(alloc, tree, packages, lock, edge)?;
    Ok(location)
}

// That a lock, if there is one, allows a binding.
fn check_by<R: Asker>(
    alloc: Global,
    tree: &mut R,
    packages: &mut PackageReadings,
    lock: Option<&Lock<'_>>,
    edge: &Edge<'_>,
) -> Result<(), ResolveError<EdgeFault>>
    ensures { Resolves (R.asking tree.old) (R.asking tree.new) result
        (check_by (option_copied lock.entry) edge.now.manifest.now edge.now.owner.now
        edge.now.name.now edge.now.bound.now) }
{
    match lock {
        Some(lock) => lock_check(alloc, tree, packages, lock, edge),
        None => Ok(()),
    }
}

// That a lock allows a binding.
fn lock_check<R: Asker>(
    alloc: Global,
    tree: &mut R,
    packages: &mut PackageReadings,
    lock: &Lock<'_>,
    edge: &Edge<'_>,
) -> Result<(), ResolveError<EdgeFault>>
    ensures { Resolves (R.asking tree.old) (R.asking tree.new) result
        (lock_check lock.now edge.now.manifest.now edge.now.owner.now edge.now.name.now
        edge.now.bound.now) }
{
    let bound = edge.bound;
    let reference = bound.reference.as_str();
    if is_workspace(reference) {
        return Ok(());
    }
    let Some(entry) = lock.first_naming(alloc, bound)? else {
        return Err(ResolveError::Refused(EdgeFault::NotLocked));
    };
    if !is_npm(reference) {
        return Ok(());
    }
    range_check(alloc, tree, packages, edge, entry)
}

// That an entry's version is within the range that the asking package declares.
fn range_check<R: Asker>(
    alloc: Global,
    tree: &mut R,
    packages: &mut PackageReadings,
    edge: &Edge<'_>,
    entry: &Entry<'_>,
) -> Result<(), ResolveError<EdgeFault>>
    ensures { Resolves (R.asking tree.old) (R.asking tree.new) result
        (range_check edge.now.manifest.now edge.now.owner.now edge.now.name.now entry.now) }
{
    let range = declared_range(alloc, tree, packages, edge)?;
    within(alloc, range, entry.version())
}
