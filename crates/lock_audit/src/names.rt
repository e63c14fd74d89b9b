// By what the packages of a manifest are named in locks.
ghost use Rattle.std.specs.Prelude.{◌≡◌, ◌++◌, ◌∷◌, ◌||◌, [], ℕ, List, IfOk, OnOk, bytes_eq, codes, map, option_map};
ghost use Rattle.std.specs.HashSet.{contains_text};
ghost use Rattle.lock_checks.specs.Reference.{behind_mark, plain_reference};
ghost use Rattle.pnp_core.specs.Manifest.{locator, rows_under};
ghost use Rattle.pnp_core.specs.declared.manifest.PackageLocator.{PackageLocator};
ghost use Rattle.lock_audit.specs.Entries.{has_name, locators_of};
ghost use Rattle.lock_audit.specs.Names.{Adds, AreNamesOf, contains_release, is_release};

use indexmap::IndexMap;
use pnp_core::{Manifest, PackageInformation};
use std::alloc::{AllocError, Global};
use std::collections::HashSet;
use sugar_path::{Text, after};
use yarn_lock_parser::Entry;

// The texts that entries of a manifest's packages are resolved to, and the names of those of npm's registry with their
// versions, as a lock of version 1 has them. Whether an entry names a package is looked up.
#[derive(Drop)]
pub(crate) struct Names<'m> {
    pub resolutions: HashSet<String>,
    pub releases: HashSet<(&'m str, &'m str)>,
}

// The names of a manifest's packages.
pub(crate) fn names_of(alloc: Global, manifest: &Manifest) -> Result<Names<'_>, AllocError>
    ensures { IfOk result (λ names.
        AreNamesOf names (locators_of manifest.now.package_registry_data)) }
{
    names_in(alloc, &manifest.package_registry_data)
}

// Whether an entry of a lock of some version names one of the packages.
pub(crate) fn is_named(names: &Names<'_>, version: u8, entry: &Entry<'_>) -> bool
    ensures { (locators : List PackageLocator) → AreNamesOf names.now locators
        → result ≡ has_name version locators entry.now }
{
    if names.resolutions.contains(entry.resolved()) {
        return true;
    }
    version == 1 && names.releases.contains(&(entry.name(), entry.version()))
}

// The names of the packages of a registry.
fn names_in(
    alloc: Global,
    registry: &IndexMap<Text, IndexMap<Text, PackageInformation>>,
) -> Result<Names<'_>, AllocError>
    ensures { IfOk result (λ names. AreNamesOf names
        (locators_of (map (λ named. (named.0, named.1.entries)) registry.now.entries))) }
{
    let mut names = Names {
        resolutions: HashSet::new(alloc),
        releases: HashSet::new(alloc),
    };
    for (name, references) in registry.iter() {
        put_names(alloc, &mut names, name, references)?;
    }
    Ok(names)
}

// Puts the names of the packages of one name.
fn put_names<'m>(
    alloc: Global,
    names: &mut Names<'m>,
    name: &'m Text,
    references: &'m IndexMap<Text, PackageInformation>,
) -> Result<(), AllocError>
    ensures { OnOk result (Adds names.old names.new
        (map (λ row. row.0) (rows_under (name.now, references.now.entries)))) }
{
    for (reference, _) in references.iter() {
        put_name(alloc, names, name.as_str(), reference.as_str())?;
    }
    Ok(())
}

// Puts the names of a package.
fn put_name<'m>(
    alloc: Global,
    names: &mut Names<'m>,
    name: &'m str,
    reference: &'m str,
) -> Result<(), AllocError>
    ensures { OnOk result (Adds names.old names.new (locator name.now reference.now ∷ [])) }
{
    let reference = plain_reference(reference);
    put_resolution(alloc, &mut names.resolutions, name, reference)?;
    put_release(&mut names.releases, name, reference)?;
    Ok(())
}

// Puts the text that entries of a package are resolved to.
fn put_resolution(
    alloc: Global,
    resolutions: &mut HashSet<String>,
    name: &str,
    reference: &str,
) -> Result<(), AllocError>
    ensures { OnOk result ((text : List ℕ) → contains_text resolutions.new text
        ≡ bytes_eq text (name.now ++ codes "@" ++ reference.now)
        || contains_text resolutions.old text) }
{
    let resolution = format!(in alloc; "{name}@{reference}")?;
    resolutions.insert(resolution)?;
    Ok(())
}

// Puts the name of a package with its version, where the package is one of npm's registry.
fn put_release<'m>(
    releases: &mut HashSet<(&'m str, &'m str)>,
    name: &'m str,
    reference: &'m str,
) -> Result<(), AllocError>
    ensures { OnOk result ((named version : List ℕ) → contains_release releases.new named version
        ≡ is_release name.now reference.now named version
        || contains_release releases.old named version) }
{
    let Some(version) = after("npm:", reference) else {
        return Ok(());
    };
    releases.insert((name, version))?;
    Ok(())
}

// A reference without its virtual part.
fn plain_reference(reference: &str) -> &str
    ensures { result.now ≡ plain_reference reference.now }
{
    if !reference.starts_with("virtual:") {
        return reference;
    }
    behind_mark(reference).unwrap_or(reference)
}

// What follows the first `#`.
fn behind_mark(text: &str) -> Option<&str>
    ensures { option_map (λ t. t.now) result ≡ behind_mark text.now }
{
    match text.split_once('#') {
        Some((_, behind)) => Some(behind),
        None => None,
    }
}
