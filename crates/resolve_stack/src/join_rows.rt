// The join rows, each by itself.
ghost use Rattle.std.specs.Prelude.{◌≡◌, ℕ, List, IfOk, Err, Some};
ghost use Rattle.std.specs.Option.{option_copied};
ghost use Rattle.tree_core.specs.Asks.{seen};
ghost use Rattle.tree_core.specs.Resolving.{Resolves, IsDecided, IsDecidedTo, resolving};
ghost use Rattle.lock_checks.specs.Borrowed.{borrowed};
ghost use Rattle.pnp_core.specs.Manifest.{location_of};
ghost use Rattle.pnp_core.specs.Owner.{IsReady};
ghost use Rattle.resolve_stack.specs.Request.{request_of};
ghost use Rattle.resolve_stack.specs.OrderParts.{raised_result};
ghost use Rattle.resolve_stack.specs.Known.{read_by};
ghost use Rattle.resolve_stack.specs.Rows as rows;

use crate::kept::{KeptManifest, KeptManifests, known_at};
use crate::request::Request;
use crate::{JoinRefusal, Project};
use lock_checks::{Edge, EdgeFault, checked_location};
use package_readings::PackageReadings;
use pnp_core::{
    Binding, Manifest, PackageLocator, binding_of_name, missing_peer_of, package_place,
    split_bare_identifier, undeclared_of,
};
use std::alloc::{AllocError, Global};
use sugar_path::{CleanPath, Text};
use swc_loader::{FileName, NodeRefusal, Placed, Readings, is_bare};
use tree_core::{Asker, ResolveError};

// An importer that asks for a bare specifier, as text and as path, the manifest nearest to it, and the package that
// owns it there.
#[derive(Clone, Copy)]
pub(crate) struct Asking<'a> {
    pub text: &'a str,
    pub path: &'a CleanPath,
    pub manifest: &'a Manifest,
    pub owner: &'a PackageLocator,
}

// What is sought in the folder of a package: the package itself, or a subpath of it.
#[derive(Clone, Copy)]
pub(crate) struct Sought<'f, 's> {
    pub folder: &'f CleanPath,
    pub subpath: Option<&'s str>,
}

// The path that a bare specifier is asked from, as it was written.
pub(crate) fn bare_base<'a>(request: &Request<'a>) -> Option<&'a str>
    ensures { option_copied result ≡ rows.bare_base (request_of request.now) }
{
    match request.importer {
        FileName::Real(base) => {
            if is_bare(request.specifier) {
                Some(base.as_str())
            } else {
                None
            }
        }
        FileName::Custom(_) => None,
        FileName::Anon => None,
    }
}

// A result of the search for Node's modules, with the order's refusals.
pub(crate) fn raised<A>(
    found: Result<A, ResolveError<NodeRefusal>>,
) -> Result<A, ResolveError<JoinRefusal>>
    ensures { seen resolving result ≡ raised_result rows.of_node (seen resolving found) }
{
    match found {
        Ok(answer) => Ok(answer),
        Err(error) => Err(error.map_refused(of_node)),
    }
}

// A refusal of the search for Node's modules, as the order's.
fn of_node(refusal: NodeRefusal) -> JoinRefusal
    ensures { result ≡ rows.of_node refusal }
{
    match refusal {
        NodeRefusal::NotFound { text } => JoinRefusal::NotFound { text },
        NodeRefusal::BaseNotAFile => JoinRefusal::BaseNotAFile,
        NodeRefusal::MalformedPackage { path } => JoinRefusal::MalformedPackage { path },
    }
}

// The manifest that a file is: a known one, or what its bytes say.
pub(crate) fn read_manifest<'k, R: Asker>(
    alloc: Global,
    tree: &mut R,
    known: &'k [KeptManifest],
    kept: &'k mut KeptManifests,
    file: CleanPath,
) -> Result<&'k Manifest, ResolveError<JoinRefusal>>
    ensures asks { Resolves (R.asking tree.old) (R.asking tree.new) (borrowed result)
        (read_by known.now file) }
    ensures ready { IfOk result (λ manifest. IsReady manifest.now) }
{
    let content = tree.read(&file)?;
    match known_at(known, &file) {
        Some(manifest) => Ok(manifest),
        None => kept.manifest_of(alloc, file, content),
    }
}

// The package name that a target begins with, and its subpath.
pub(crate) fn identifier_of(
    alloc: Global,
    target: &str,
) -> Result<(Text, Option<Text>), ResolveError<JoinRefusal>>
    ensures { IsDecided result (rows.identifier_of target.now) }
{
    match split_bare_identifier(alloc, target)? {
        Some(identifier) => Ok(identifier),
        None => Err(ResolveError::Refused(JoinRefusal::BadSpecifier {
            specifier: Text::of(alloc, target)?,
        })),
    }
}

// The package that a name is bound to, by the owner's row or by a fallback.
pub(crate) fn bound_of(
    alloc: Global,
    asking: &Asking<'_>,
    target: &str,
    name: &Text,
) -> Result<PackageLocator, ResolveError<JoinRefusal>>
    ensures { IsDecided result (rows.bound_of asking.now.manifest.now asking.now.owner.now
        asking.now.path.now target.now name.now) }
{
    let Asking {
        path,
        manifest,
        owner,
        ..
    } = *asking;
    let issuer = path.as_str();
    match binding_of_name(alloc, manifest, owner, name)? {
        Binding::Bound(locator) => Ok(locator),
        Binding::MissingPeer => {
            let told = missing_peer_of(alloc, manifest, owner, target, name.as_str(), issuer)?;
            Err(ResolveError::Refused(JoinRefusal::MissingPeerDependency(told)))
        }
        Binding::Undeclared => {
            let told = undeclared_of(alloc, manifest, owner, target, name.as_str(), issuer)?;
            Err(ResolveError::Refused(JoinRefusal::UndeclaredDependency(told)))
        }
    }
}

// The location of the bound package's row, where the project's lock, if it has one, allows the binding.
pub(crate) fn checked_row<'m, R: Asker>(
    alloc: Global,
    tree: &mut R,
    packages: &mut PackageReadings,
    project: &Project<'_>,
    edge: &Edge<'m>,
) -> Result<&'m str, ResolveError<JoinRefusal>>
    ensures asks { Resolves (R.asking tree.old) (R.asking tree.new) (borrowed result)
        (rows.checked_row project.now edge.now.manifest.now edge.now.owner.now
        edge.now.name.now edge.now.bound.now) }
    ensures row { IfOk result (λ location.
        location_of edge.now.manifest.now edge.now.bound.now ≡ Some location.now) }
{
    match checked_location(alloc, tree, packages, project.lock(), edge) {
        Ok(location) => Ok(location),
        Err(error) => Err(refused_binding(alloc, edge.bound, error.refusal()?)),
    }
}

// The refusal of a binding that a check refuses.
fn refused_binding(
    alloc: Global,
    bound: &PackageLocator,
    fault: EdgeFault,
) -> ResolveError<JoinRefusal>
    ensures { IsDecided {A = List ℕ} (Err result) (Err (rows.of_fault bound.now fault)) }
{
    match of_fault(alloc, bound, fault) {
        Ok(refusal) => ResolveError::Refused(refusal),
        Err(_) => ResolveError::NoMemory,
    }
}

// A fault of a binding, as the order's refusal.
fn of_fault(
    alloc: Global,
    bound: &PackageLocator,
    fault: EdgeFault,
) -> Result<JoinRefusal, AllocError>
    ensures { IfOk result (λ refusal. refusal ≡ rows.of_fault bound.now fault) }
{
    match fault {
        EdgeFault::NotInRegistry => Ok(JoinRefusal::NotInRegistry {
            name: bound.name.try_clone(alloc)?,
            reference: bound.reference.try_clone(alloc)?,
        }),
        EdgeFault::NotLocked => Ok(JoinRefusal::NotLocked {
            name: bound.name.try_clone(alloc)?,
            reference: bound.reference.try_clone(alloc)?,
        }),
        EdgeFault::MalformedPackage { path } => Ok(JoinRefusal::MalformedPackage { path }),
        EdgeFault::OutOfRange { range, version } => Ok(JoinRefusal::OutOfRange { range, version }),
    }
}

// The folder where the bytes of a bound package are, whose row has this location.
pub(crate) fn folder_of<'m>(
    alloc: Global,
    manifest: &'m Manifest,
    bound: &PackageLocator,
    location: &str,
) -> Result<&'m CleanPath, ResolveError<JoinRefusal>>
    requires { location_of manifest.now bound.now ≡ Some location.now }
    ensures { IsDecidedTo result (rows.folder_of location.now) }
{
    match package_place(manifest, bound) {
        Some(folder) => Ok(folder),
        None => Err(ResolveError::Refused(JoinRefusal::Archive {
            location: Text::of(alloc, location)?,
        })),
    }
}

// The file that exports mean, or else what is found at the location of a package, by the rules for it.
pub(crate) fn found_at<R: Asker>(
    alloc: Global,
    tree: &mut R,
    readings: &mut Readings,
    project: &Project<'_>,
    sought: &Sought<'_, '_>,
    exported: Option<CleanPath>,
) -> Result<Placed, ResolveError<JoinRefusal>>
    ensures { Resolves (R.asking tree.old) (R.asking tree.new) result
        (rows.found_at project.now sought.now.folder.now (option_copied sought.now.subpath) exported) }
{
    let node = project.node();
    let Sought { folder, subpath } = *sought;
    match exported {
        Some(file) => Ok(node.rewrite_at_with(alloc, tree, readings, file)?),
        None => raised(node.resolve_at_with(alloc, tree, readings, folder, subpath)),
    }
}

// A file that lies below a location; any other is refused.
pub(crate) fn contained(
    alloc: Global,
    folder: &CleanPath,
    file: CleanPath,
) -> Result<CleanPath, ResolveError<JoinRefusal>>
    ensures { IsDecided result (rows.contained folder.now file) }
{
    if !file.is_below(folder) {
        return Err(ResolveError::Refused(JoinRefusal::Outside {
            file: file.into_text()?,
            location: folder.to_text(alloc)?,
        }));
    }
    Ok(file)
}
