// What a package's row binds a name to.
ghost use Rattle.std.specs.Prelude.{◌≡◌, IfOk};
ghost use Rattle.std.specs.Option.{option_copied};
ghost use Rattle.pnp_core.specs.declared.manifest.Binding.TheVariants.{Bound};
ghost use Rattle.pnp_core.specs.Binding.{
  bind,
  bound_to,
  own,
  given,
  unbound,
  fallback,
  may_fall_back,
  allowed_fallback,
};

use crate::registry::{is_excluded_from_fallback, package_of};
use crate::{Binding, Manifest, PackageDependency, PackageLocator};
use std::alloc::{AllocError, Global};
use sugar_path::Text;

/// The binding of a name for an owner: its row's own, else the fallback where that is allowed.
pub fn binding_of(
    alloc: Global,
    manifest: &Manifest,
    owner: &PackageLocator,
    name: &str,
) -> Result<Binding, AllocError>
    ensures { IfOk result (λ binding. binding ≡ bind manifest.now owner.now name.now) }
{
    binding_of_name(alloc, manifest, owner, &Text::of(alloc, name)?)
}

/// The binding of a name that is at hand as a text of its own: nothing is copied to be looked up.
pub fn binding_of_name(
    alloc: Global,
    manifest: &Manifest,
    owner: &PackageLocator,
    name: &Text,
) -> Result<Binding, AllocError>
    ensures { IfOk result (λ binding. binding ≡ bind manifest.now owner.now name.now) }
{
    let own = own_dependency(manifest, owner, name);
    if let Some(dependency) = given(own) {
        return bound(alloc, name, dependency);
    }
    if let Some(dependency) = allowed_fallback(alloc, manifest, owner, name) {
        return bound(alloc, name, dependency);
    }
    Ok(unbound(own))
}

// What the row of a locator says of a name.
fn own_dependency<'a>(
    manifest: &'a Manifest,
    locator: &PackageLocator,
    name: &Text,
) -> Option<&'a Option<PackageDependency>>
    ensures { option_copied result ≡ own manifest.now locator.now name.now }
{
    let package = package_of(manifest, locator)?;
    package.package_dependencies.get(name)
}

// A binding that isn't null.
fn given<'a>(dependency: Option<&'a Option<PackageDependency>>) -> Option<&'a PackageDependency>
    ensures { option_copied result ≡ given (option_copied dependency.entry) }
{
    match dependency {
        Some(Some(dependency)) => Some(dependency),
        _ => None,
    }
}

// The fallback of a name, where the owner may fall back.
fn allowed_fallback<'a>(
    alloc: Global,
    manifest: &'a Manifest,
    owner: &PackageLocator,
    name: &Text,
) -> Option<&'a PackageDependency>
    ensures { option_copied result ≡ allowed_fallback manifest.now owner.now name.now }
{
    if !may_fall_back(manifest, owner) {
        return None;
    }
    fallback(alloc, manifest, name)
}

fn may_fall_back(manifest: &Manifest, owner: &PackageLocator) -> bool
    ensures { result ≡ may_fall_back manifest.now owner.now }
{
    !owner.name.as_str().is_empty()
        && manifest.enable_top_level_fallback
        && !is_excluded_from_fallback(manifest, owner)
}

// The top-level row's binding of a name, else the pool's.
fn fallback<'a>(alloc: Global, manifest: &'a Manifest, name: &Text) -> Option<&'a PackageDependency>
    ensures { option_copied result ≡ fallback manifest.now name.now }
{
    let top_level = PackageLocator::top_level(alloc);
    match given(own_dependency(manifest, &top_level, name)) {
        Some(dependency) => Some(dependency),
        None => given(manifest.fallback_pool.get(name)),
    }
}

// The binding of a name by a dependency.
fn bound(alloc: Global, name: &Text, dependency: &PackageDependency) -> Result<Binding, AllocError>
    ensures { IfOk result (λ binding. binding ≡ Bound (bound_to name.now dependency.now)) }
{
    let (name, reference) = match dependency {
        PackageDependency::Reference(reference) => (name, reference),
        PackageDependency::Alias(name, reference) => (name, reference),
    };
    Ok(Binding::Bound(PackageLocator {
        name: name.try_clone(alloc)?,
        reference: reference.try_clone(alloc)?,
    }))
}

fn unbound(own: Option<&Option<PackageDependency>>) -> Binding
    ensures { result ≡ unbound (option_copied own.entry) }
{
    match own {
        None => Binding::Undeclared,
        Some(_) => Binding::MissingPeer,
    }
}
