// The rows of a manifest, and its lists of locators.
ghost use Rattle.std.specs.Prelude.{◌≡◌, Some, IsTrue};
ghost use Rattle.std.specs.Option.{option_copied};
ghost use Rattle.pnp_core.specs.Manifest.{package_at, has_row};
ghost use Rattle.pnp_core.specs.Binding.{is_root, is_excluded};
ghost use Rattle.pnp_core.specs.PhysicalPlace.{place_of};

use crate::{Manifest, PackageInformation, PackageLocator};
use sugar_path::CleanPath;

/// Whether the registry has a row for a locator.
pub fn has_package(manifest: &Manifest, locator: &PackageLocator) -> bool
    ensures { result ≡ has_row manifest.now locator.now }
{
    package_of(manifest, locator).is_some()
}

/// What the row of a locator says.
pub fn get_package<'a>(manifest: &'a Manifest, locator: &PackageLocator) -> &'a PackageInformation
    requires { IsTrue (has_row manifest.now locator.now) }
    ensures { package_at manifest.now.package_registry_data locator.now ≡ Some result.now }
{
    match package_of(manifest, locator) {
        Some(package) => package,
        None => unreachable!(),
    }
}

/// The folder of a package's row, where the manifest has one for it and its location lies in no archive.
pub fn package_place<'m>(manifest: &'m Manifest, locator: &PackageLocator) -> Option<&'m CleanPath>
    ensures { option_copied result ≡ place_of manifest.now locator.now }
{
    let package = package_of(manifest, locator)?;
    package.package_place.as_ref()
}

// What the row of a locator says, where there is one.
pub(crate) fn package_of<'a>(
    manifest: &'a Manifest,
    locator: &PackageLocator,
) -> Option<&'a PackageInformation>
    ensures { option_copied result ≡ package_at manifest.now.package_registry_data locator.now }
{
    let references = manifest.package_registry_data.get(&locator.name)?;
    references.get(&locator.reference)
}

/// Whether a package is a root of the dependency tree: the application's own.
pub fn is_dependency_tree_root(manifest: &Manifest, locator: &PackageLocator) -> bool
    ensures { result ≡ is_root manifest.now locator.now }
{
    manifest.dependency_tree_roots.contains(locator)
}

/// Whether the manifest's list keeps a package from the fallback.
pub fn is_excluded_from_fallback(manifest: &Manifest, locator: &PackageLocator) -> bool
    ensures { result ≡ is_excluded manifest.now locator.now }
{
    match manifest.fallback_exclusion_list.get(&locator.name) {
        None => false,
        Some(references) => references.contains(&locator.reference),
    }
}
