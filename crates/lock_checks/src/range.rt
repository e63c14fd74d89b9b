// The range that a package's own package.json declares.
ghost use Rattle.std.specs.Prelude.{◌≡◌, None, IfOk, IfSome};
ghost use Rattle.std.specs.Option.{option_copied};
ghost use Rattle.tree_core.specs.Resolving.{Resolves, IsDecided};
ghost use Rattle.npm_req.specs.Requirement.{tag_of};
ghost use Rattle.pnp_core.specs.Manifest.{location_of};
ghost use Rattle.lock_checks.specs.Borrowed.{borrowed_if_any};
ghost use Rattle.lock_checks.specs.Range.{
  declared_range,
  range_among,
  range_in_content,
  range_in_folder,
  range_of,
  is_within,
  unless_tag,
  within,
};

use crate::{Edge, EdgeFault};
use deno_package_json::{PackageJsonDepValue, PackageJsonDepValueParseError};
use npm_req::{NpmVersionParseError, Version, VersionReq};
use package_readings::{PackageReadings, ReadPackage};
use pnp_core::{Manifest, PackageLocator, get_package, has_package, package_place};
use std::alloc::{AllocError, Global};
use sugar_path::{Bytes, CleanPath, Text};
use tree_core::{Asker, ResolveError};

// The location of a package's row.
pub(crate) fn location_of<'m>(manifest: &'m Manifest, locator: &PackageLocator) -> Option<&'m str>
    ensures { option_copied result ≡ location_of manifest.now locator.now }
{
    if !has_package(manifest, locator) {
        return None;
    }
    Some(get_package(manifest, locator).package_location.as_str())
}

// The range that the asking package of a binding declares under the name. It is no tag.
pub(crate) fn declared_range<'p, R: Asker>(
    alloc: Global,
    tree: &mut R,
    packages: &'p mut PackageReadings,
    edge: &Edge<'_>,
) -> Result<Option<&'p VersionReq>, ResolveError<EdgeFault>>
    ensures asks { Resolves (R.asking tree.old) (R.asking tree.new) (borrowed_if_any result)
        (declared_range edge.now.manifest.now edge.now.owner.now edge.now.name.now) }
    ensures range { IfOk result (λ found. IfSome found (λ range. tag_of range.now.meaning ≡ None)) }
{
    match package_place(edge.manifest, edge.owner) {
        Some(folder) => range_in_folder(alloc, tree, packages, folder, edge.name),
        None => Ok(None),
    }
}

// The range that the package.json of a folder declares.
fn range_in_folder<'p, R: Asker>(
    alloc: Global,
    tree: &mut R,
    packages: &'p mut PackageReadings,
    folder: &CleanPath,
    name: &str,
) -> Result<Option<&'p VersionReq>, ResolveError<EdgeFault>>
    ensures asks { Resolves (R.asking tree.old) (R.asking tree.new) (borrowed_if_any result)
        (range_in_folder folder.now name.now) }
    ensures range { IfOk result (λ found. IfSome found (λ range. tag_of range.now.meaning ≡ None)) }
{
    let file = folder.child(alloc, "package.json")?;
    let content = tree.read(&file)?;
    range_in_content(alloc, packages, &file, name, content)
}

// The range that the bytes of a package.json declare.
fn range_in_content<'p>(
    alloc: Global,
    packages: &'p mut PackageReadings,
    file: &CleanPath,
    name: &str,
    content: Option<Bytes>,
) -> Result<Option<&'p VersionReq>, ResolveError<EdgeFault>>
    ensures decided { IsDecided (borrowed_if_any result)
        (range_in_content file.now name.now content) }
    ensures range { IfOk result (λ found. IfSome found (λ range. tag_of range.now.meaning ≡ None)) }
{
    let Some(bytes) = content else {
        return Ok(None);
    };
    match packages.package_of(alloc, bytes)? {
        Some(read) => Ok(range_under(alloc, read, name)?),
        None => Err(ResolveError::Refused(EdgeFault::MalformedPackage {
            path: file.to_text(alloc)?,
        })),
    }
}

// The range that a package declares under a name.
fn range_under<'p>(
    alloc: Global,
    read: &'p ReadPackage,
    name: &str,
) -> Result<Option<&'p VersionReq>, AllocError>
    ensures under { IfOk result (λ found.
        option_copied found ≡ range_among name.now read.now.requirements.entries) }
    ensures range { IfOk result (λ found. IfSome found (λ range. tag_of range.now.meaning ≡ None)) }
{
    let name = Text::of(alloc, name)?;
    match read.requirements.get(&name) {
        Some(required) => Ok(range_of(required)),
        None => Ok(None),
    }
}

// The range that a requirement declares.
fn range_of(
    required: &Result<PackageJsonDepValue, PackageJsonDepValueParseError>,
) -> Option<&VersionReq>
    ensures of { option_copied result ≡ range_of required.now }
    ensures range { IfSome result (λ range. tag_of range.now.meaning ≡ None) }
{
    match required {
        Ok(PackageJsonDepValue::Req(package)) => unless_tag(&package.version_req),
        Ok(PackageJsonDepValue::Workspace(_)) => None,
        Err(_) => None,
    }
}

// What a requirement requires, where it is a range.
fn unless_tag(required: &VersionReq) -> Option<&VersionReq>
    ensures of { option_copied result ≡ unless_tag required.now }
    ensures range { IfSome result (λ range. tag_of range.now.meaning ≡ None) }
{
    if required.tag().is_some() {
        None
    } else {
        Some(required)
    }
}

// That a version is within the range that is declared, if one is.
pub(crate) fn within(
    alloc: Global,
    declared: Option<&VersionReq>,
    version: &str,
) -> Result<(), ResolveError<EdgeFault>>
    requires { IfSome declared (λ range. tag_of range.now.meaning ≡ None) }
    ensures { IsDecided result (within (option_copied declared.entry) version.now) }
{
    let Some(range) = declared else {
        return Ok(());
    };
    if is_within(alloc, range, version)? {
        return Ok(());
    }
    Err(ResolveError::Refused(EdgeFault::OutOfRange {
        range: Text::of(alloc, range.text())?,
        version: Text::of(alloc, version)?,
    }))
}

// Whether a version can be read, and is within a range.
fn is_within(alloc: Global, range: &VersionReq, version: &str) -> Result<bool, AllocError>
    requires { tag_of range.now.meaning ≡ None }
    ensures { IfOk result (λ within. within ≡ is_within range.now version.now) }
{
    match Version::parse_npm(alloc, version) {
        Ok(version) => Ok(range.matches(&version)),
        Err(NpmVersionParseError::NotAVersion) => Ok(false),
        Err(NpmVersionParseError::NoMemory) => Err(AllocError),
    }
}
