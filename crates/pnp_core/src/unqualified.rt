// Where a bare specifier leads by a manifest alone.
ghost use Rattle.sugar_path.specs.Path.{IsCleanPath};
ghost use Rattle.pnp_core.specs.Manifest.{location_of};
ghost use Rattle.pnp_core.specs.Owner.{IsReady};
ghost use Rattle.pnp_core.specs.Unqualified.{unqualified, at_row, ComesTo};

use crate::binding::binding_of_name;
use crate::registry::package_of;
use crate::{
    Binding, Error, Manifest, PackageLocator, find_locator, missing_peer_of, parse_bare_identifier,
    undeclared_of,
};
use std::alloc::Global;
use sugar_path::Text;

/// Where a specifier leads: to the location of a package, with the subpath that is asked of it, or past the manifest's
/// packages.
#[derive(Drop)]
pub enum Resolution {
    Resolved(Text, Option<Text>),
    Skipped,
}

/// Where a specifier leads that a file asks. The specifier is read first; a file that nothing owns is skipped.
#[tactic(auto, unfolding(crate::specs::Unqualified::unqualified))]
pub fn resolve_to_unqualified_via_manifest(
    alloc: Global,
    manifest: &Manifest,
    specifier: &str,
    parent: &str,
) -> Result<Resolution, Error>
    requires ready { IsReady manifest.now }
    requires clean { IsCleanPath parent.now }
    ensures { ComesTo result (unqualified manifest.now specifier.now parent.now) }
{
    let (name, subpath) = parse_bare_identifier(alloc, specifier)?;
    let Some(owner) = find_locator(alloc, manifest, parent)? else {
        return Ok(Resolution::Skipped);
    };
    match binding_of_name(alloc, manifest, owner, &name)? {
        Binding::Bound(bound) => at_row(alloc, manifest, bound, subpath),
        Binding::MissingPeer => {
            let told = missing_peer_of(alloc, manifest, owner, specifier, name.as_str(), parent)?;
            Err(Error::MissingPeerDependency(told))
        }
        Binding::Undeclared => {
            let told = undeclared_of(alloc, manifest, owner, specifier, name.as_str(), parent)?;
            Err(Error::UndeclaredDependency(told))
        }
    }
}

// The location of a bound package's row, and the subpath.
fn at_row(
    alloc: Global,
    manifest: &Manifest,
    bound: PackageLocator,
    subpath: Option<Text>,
) -> Result<Resolution, Error>
    ensures { ComesTo result (at_row bound subpath (location_of manifest.now bound)) }
{
    match package_of(manifest, &bound) {
        None => Err(Error::NotInRegistry { locator: bound }),
        Some(package) => {
            let location = package.package_location.try_clone(alloc)?;
            Ok(Resolution::Resolved(location, subpath))
        }
    }
}
