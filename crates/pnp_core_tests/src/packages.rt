// What a manifest has of its packages, at values from outside.
ghost use Rattle.std.specs.Prelude.{IfOk};
ghost use Rattle.pnp_core.specs.Owner.{IsReady};

use crate::answers::{answers, each_answer_comes};
use crate::manifests::{manifest_text, path, ready_from};
use pnp_core::{
    Manifest, PackageLocator, find_broken_peer_dependencies, find_locator, get_package,
    has_package, is_dependency_tree_root, is_excluded_from_fallback, owner_of, package_place,
};
use std::alloc::Global;
use std::test::Fail;
use sugar_path::Text;

// Questions about owners, rows and names. Those about messages and specifiers have tables of their own.
fn asked() -> &'static str {
    "# the row of `hidden` is discarded, so `foo` owns what lies there
owner /w/.yarn/foo/lib/x.js = foo
owner /w/.yarn/foo/hidden/x.js = foo
owner /w/.yarn/foobar/x.js = app
owner /x.js = nothing
# the ignore pattern leaves a path without an owner
owner /w/.yarn/sdks/.bin = nothing
owner /w/.yarn/sdksx/a.js = app
# the roots, and who is kept from the fallback
root app@workspace:. = yes
root foo@npm:1.0.0 = no
excluded alone@npm:1.0.0 = yes
excluded foo@npm:1.0.0 = no
# rows, and where their packages lie
location hidden@npm:1.0.0 = /w/.yarn/foo/hidden/
location hidden@npm:2.0.0 = no row
# the folders of packages: at a plain location, at a virtual one, inside an archive, and of no row
place foo@npm:1.0.0 = /w/.yarn/foo
place peered@virtual:ab#npm:1.0.0 = /w/packages/peered
place zipped@npm:1.0.0 = no folder
place hidden@npm:2.0.0 = no folder
# names by the fallback and the pool
bound foo@npm:1.0.0 top = top@npm:4.0.0
bound foo@npm:1.0.0 pooled = pooled@npm:3.0.0
bound foo@npm:1.0.0 peer = missing peer
bound alone@npm:1.0.0 pooled = undeclared"
}

#[test]
fn a_manifest_answers(rt: HostRuntime) -> Result<(), Fail> {
    answers(&rt, rt.alloc(), manifest_text(), asked())?;
    answers(
        &rt,
        rt.alloc(),
        manifest_text(),
        crate::wordings::messages(),
    )
}

// A copy answers alike, once the manifest itself is gone.
#[test]
fn a_copy_answers_alike(rt: HostRuntime) -> Result<(), Fail> {
    let copy = copied_manifest(rt.alloc())?;
    each_answer_comes(&rt, rt.alloc(), &copy, asked())
}

fn copied_manifest(alloc: Global) -> Result<Manifest, Fail>
    ensures { IfOk result IsReady }
{
    let manifest = ready_from(alloc, manifest_text())?;
    let copy = manifest.try_clone(alloc)?;
    Ok(copy)
}

/// Whether a package is one of the roots.
pub(crate) fn is_root(alloc: Global, manifest: &Manifest, package: &str) -> Result<bool, Fail> {
    let locator = locator(alloc, package)?;
    Ok(is_dependency_tree_root(manifest, &locator))
}

/// Whether a package is kept from the fallback.
pub(crate) fn is_excluded(alloc: Global, manifest: &Manifest, package: &str) -> Result<bool, Fail> {
    let locator = locator(alloc, package)?;
    Ok(is_excluded_from_fallback(manifest, &locator))
}

/// A package by its name and reference.
pub(crate) fn locator(alloc: Global, package: &str) -> Result<PackageLocator, Fail> {
    let (name, reference) = package.split_once('@').ok_or("no reference")?;
    Ok(PackageLocator {
        name: Text::of(alloc, name)?,
        reference: Text::of(alloc, reference)?,
    })
}

/// The name of the package that owns a path, by its text and as a clean path.
pub(crate) fn owner_told(alloc: Global, manifest: &Manifest, text: &str) -> Result<Text, Fail>
    requires { IsReady manifest.now }
{
    let path = path(alloc, text)?;
    let owner = find_locator(alloc, manifest, path.as_str())?;
    if owner != owner_of(alloc, manifest, &path)? {
        return Err(Fail::from("another owner by the clean path"));
    }
    match owner {
        Some(owner) if owner.name.as_str().is_empty() => Ok(Text::of(alloc, "the top level")?),
        Some(owner) => Ok(owner.name.try_clone(alloc)?),
        None => Ok(Text::of(alloc, "nothing")?),
    }
}

/// Where the package of a row lies.
pub(crate) fn location_told(
    alloc: Global,
    manifest: &Manifest,
    package: &str,
) -> Result<Text, Fail> {
    let locator = locator(alloc, package)?;
    if !has_package(manifest, &locator) {
        return Ok(Text::of(alloc, "no row")?);
    }
    let package = get_package(manifest, &locator);
    Ok(package.package_location.try_clone(alloc)?)
}

/// The folder of a package.
pub(crate) fn folder_told(alloc: Global, manifest: &Manifest, package: &str) -> Result<Text, Fail> {
    let locator = locator(alloc, package)?;
    match package_place(manifest, &locator) {
        Some(folder) => Ok(folder.to_text(alloc)?),
        None => Ok(Text::of(alloc, "no folder")?),
    }
}

#[test]
fn a_locator_is_copied(rt: HostRuntime) -> Result<(), Fail> {
    let top_level = PackageLocator::top_level(rt.alloc());
    assert!(rt; top_level.try_clone(rt.alloc())? == top_level);
    Ok(())
}

#[test]
fn no_ancestors_of_a_peer_are_told(rt: HostRuntime) {
    let top_level = PackageLocator::top_level(rt.alloc());
    let broken = find_broken_peer_dependencies(rt.alloc(), "peer", &top_level);
    assert!(rt; broken.as_slice().is_empty());
}
