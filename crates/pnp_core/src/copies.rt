// Copies of a manifest. Texts whose content is shared stay shared.
ghost use Rattle.std.specs.Prelude.{◌≡◌, ◌∷◌, [], IfOk, OnOk, map};
ghost use Rattle.sugar_path.specs.Path.{Path, IsPath};
ghost use Rattle.pnp_core.specs.Copying.{told_by};
ghost use Rattle.pnp_core.specs.Manifest.{locator, rows, rows_under};
ghost use Rattle.pnp_core.specs.Owner.{last_at};
ghost use Rattle.pnp_core.specs.Relocated.{overlaid};
ghost use Rattle.pnp_core.specs.Trie.{value_at};

use crate::initialize::copy_of;
use crate::normalize::location;
use crate::{Manifest, PackageDependency, PackageInformation, PackageLocator, RegexDef, Trie};
use indexmap::{IndexMap, IndexSet};
use std::alloc::{AllocError, Global};
use std::hash::Hash;
use sugar_path::{CleanPath, Text};

impl Manifest {
    /// An equal manifest. Its own trie is made of its rows.
    pub fn try_clone(&self, alloc: Global) -> Result<Manifest, AllocError>
        ensures { IfOk result (λ copy. copy ≡ self.now) }
    {
        let ignore_pattern_data = copied_pattern(alloc, &self.ignore_pattern_data)?;
        Ok(Manifest {
            manifest_dir: self.manifest_dir.try_clone(alloc)?,
            manifest_path: self.manifest_path.try_clone(alloc)?,
            location_trie: trie_of(alloc, &self.package_registry_data)?,
            enable_top_level_fallback: self.enable_top_level_fallback,
            ignore_pattern_data,
            dependency_tree_roots: copied_set(alloc, &self.dependency_tree_roots)?,
            fallback_pool: copied_map(alloc, &self.fallback_pool)?,
            fallback_exclusion_list: copied_map(alloc, &self.fallback_exclusion_list)?,
            package_registry_data: copied_map(alloc, &self.package_registry_data)?,
        })
    }
}

fn copied_pattern(alloc: Global, pattern: &Option<RegexDef>) -> Result<Option<RegexDef>, AllocError>
    ensures { IfOk result (λ copy. copy ≡ pattern.now) }
{
    match pattern {
        None => Ok(None),
        Some(RegexDef(pattern)) => Ok(Some(RegexDef(pattern.try_clone(alloc)?))),
    }
}

fn copied_place(alloc: Global, place: &Option<CleanPath>) -> Result<Option<CleanPath>, AllocError>
    ensures { IfOk result (λ copy. copy ≡ place.now) }
{
    match place {
        None => Ok(None),
        Some(place) => Ok(Some(place.try_clone(alloc)?)),
    }
}

// What a manifest's sets hold.
trait Member: Drop {
    fn copied(&self, alloc: Global) -> Result<Self, AllocError>
        ensures { IfOk result (λ copy. copy ≡ self.now) };
}

impl Member for Text {
    fn copied(&self, alloc: Global) -> Result<Text, AllocError> {
        self.try_clone(alloc)
    }
}

impl Member for PackageLocator {
    fn copied(&self, alloc: Global) -> Result<PackageLocator, AllocError> {
        self.try_clone(alloc)
    }
}

// What a manifest's maps hold: a copy is told alike.
trait Bound: Drop {
    ghost Told: { Type 0 };

    ghost told: { Self → Told };

    fn copied(&self, alloc: Global) -> Result<Self, AllocError>
        ensures { IfOk result (λ copy. told copy ≡ told self.now) };
}

impl Bound for Option<PackageDependency> {
    ghost use Rattle.std.specs.Prelude as prelude;
    ghost use Rattle.pnp_core.specs.declared.manifest.PackageDependency as declared;

    ghost Told = { prelude.Option declared.PackageDependency };

    ghost told = { λ dependency. dependency };

    fn copied(&self, alloc: Global) -> Result<Option<PackageDependency>, AllocError> {
        copy_of(alloc, self)
    }
}

impl Bound for PackageInformation {
    ghost use Rattle.pnp_core.specs.Manifest.{Package};

    ghost Told = { Package };

    ghost told = { λ row. row };

    fn copied(&self, alloc: Global) -> Result<PackageInformation, AllocError> {
        Ok(PackageInformation {
            package_location: self.package_location.try_clone(alloc)?,
            package_place: copied_place(alloc, &self.package_place)?,
            discard_from_lookup: self.discard_from_lookup,
            package_dependencies: copied_map(alloc, &self.package_dependencies)?,
        })
    }
}

impl Bound for IndexMap<Text, PackageInformation> {
    ghost use Rattle.std.specs.Prelude as prelude;
    ghost use Rattle.pnp_core.specs.Manifest.{Package};

    ghost Told = { prelude.List (prelude.List prelude.ℕ × Package) };

    ghost told = { λ references. references.entries };

    fn copied(&self, alloc: Global) -> Result<IndexMap<Text, PackageInformation>, AllocError> {
        let copy = copied_map(alloc, self)?;
        Ok(copy)
    }
}

impl Bound for IndexSet<Text> {
    ghost use Rattle.std.specs.Prelude as prelude;

    ghost Told = { prelude.List (prelude.List prelude.ℕ) };

    ghost told = { λ references. references.keys };

    fn copied(&self, alloc: Global) -> Result<IndexSet<Text>, AllocError> {
        copied_set(alloc, self)
    }
}

// A map with the same names, whose values are told alike.
fn copied_map<V: Bound>(
    alloc: Global,
    values: &IndexMap<Text, V>,
) -> Result<IndexMap<Text, V>, AllocError>
    ensures { IfOk result (λ copy. told_by V.told copy.entries ≡ told_by V.told values.now.entries) }
{
    let mut copy = IndexMap::with_capacity(alloc, values.len())?;
    for (name, value) in values.iter() {
        copy.insert(name.try_clone(alloc)?, value.copied(alloc)?)?;
    }
    Ok(copy)
}

// An equal set.
fn copied_set<T: Member + Eq + Hash>(
    alloc: Global,
    members: &IndexSet<T>,
) -> Result<IndexSet<T>, AllocError>
    ensures { IfOk result (λ copy. copy.keys ≡ members.now.keys) }
{
    let mut copy = IndexSet::with_capacity(alloc, members.len())?;
    for member in members.iter() {
        copy.insert(member.copied(alloc)?)?;
    }
    Ok(copy)
}

// The locators of a registry's rows, at the locations as they are written.
fn trie_of(
    alloc: Global,
    registry: &IndexMap<Text, IndexMap<Text, PackageInformation>>,
) -> Result<Trie<PackageLocator>, AllocError>
    ensures { IfOk result (λ trie.
        let rows_by_name = map (λ named. (named.0, named.1.entries)) registry.now.entries in
        (l : Path) → IsPath l → value_at trie l ≡ last_at (rows rows_by_name) l) }
{
    let mut trie = Trie::new(alloc);
    for (name, references) in registry.iter() {
        put_rows(alloc, &mut trie, name, references)?;
    }
    Ok(trie)
}

// Puts the rows of one name at their locations.
fn put_rows(
    alloc: Global,
    trie: &mut Trie<PackageLocator>,
    name: &Text,
    references: &IndexMap<Text, PackageInformation>,
) -> Result<(), AllocError>
    ensures { OnOk result ((l : Path) → IsPath l
        → value_at trie.new l ≡ overlaid (rows_under (name.now, references.now.entries)) trie.old l) }
{
    for (reference, package) in references.iter() {
        put_row(alloc, trie, name, reference, package)?;
    }
    Ok(())
}

// Puts a row at its location, unless it is discarded.
fn put_row(
    alloc: Global,
    trie: &mut Trie<PackageLocator>,
    name: &Text,
    reference: &Text,
    row: &PackageInformation,
) -> Result<(), AllocError>
    ensures { OnOk result ((l : Path) → IsPath l
        → value_at trie.new l ≡ overlaid ((locator name.now reference.now, row.now) ∷ []) trie.old l) }
{
    if row.discard_from_lookup {
        return Ok(());
    }
    let location = location(alloc, row.package_location.as_str())?;
    let locator = PackageLocator {
        name: name.try_clone(alloc)?,
        reference: reference.try_clone(alloc)?,
    };
    if let Err((_, e)) = trie.insert_at(location, locator) {
        return Err(e);
    }
    Ok(())
}
