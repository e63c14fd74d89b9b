// A manifest, as its payload says it.
use crate::Trie;
use es_pattern::Pattern;
use indexmap::{IndexMap, IndexSet};
use std::alloc::{AllocError, Global};
use std::marker::Model;
use sugar_path::{CleanPath, Text};

/// A package by its name and its reference. The top-level package has both texts empty.
#[derive(Debug, PartialEq, Eq, Hash, Drop)]
pub struct PackageLocator {
    pub name: Text,
    pub reference: Text,
}

impl PackageLocator {
    ghost use Rattle.std.specs.Prelude.{◌≡◌, IfOk};
    ghost use Rattle.pnp_core.specs.Manifest.{top_level};

    /// The locator of the top-level package. It takes no memory.
    pub fn top_level(alloc: Global) -> PackageLocator
        ensures { result ≡ top_level }
    {
        PackageLocator {
            name: Text::from(String::new(alloc)),
            reference: Text::from(String::new(alloc)),
        }
    }

    /// An equal locator.
    pub fn try_clone(&self, alloc: Global) -> Result<PackageLocator, AllocError>
        ensures { IfOk result (λ copy. copy ≡ self.now) }
    {
        Ok(PackageLocator {
            name: self.name.try_clone(alloc)?,
            reference: self.reference.try_clone(alloc)?,
        })
    }
}

/// What a name is bound to: a reference of the package of that name, or a package of another name.
#[derive(Drop)]
pub enum PackageDependency {
    Reference(Text),
    Alias(Text, Text),
}

/// What a row of the registry says of its package.
#[derive(Drop)]
pub struct PackageInformation {
    pub package_location: Text,
    /// The physical place of the location, as `physical_place` answers it. It is read once for all requests.
    pub package_place: Option<CleanPath>,
    pub discard_from_lookup: bool,
    pub package_dependencies: IndexMap<Text, Option<PackageDependency>>,
}

impl Model for PackageInformation {
    ghost use Rattle.pnp_core.specs.Manifest.{Package};

    ghost Value = { Package };

    ghost view = { λ p. record {
      package_location = p.package_location;
      discard_from_lookup = p.discard_from_lookup;
      package_dependencies = p.package_dependencies.entries;
    } };

    ghost use Rattle.std.specs.Prelude.{◌≡◌};
    ghost use Rattle.pnp_core.specs.PhysicalPlace.{physical_place};

    ghost invariant = { λ p. p.package_place ≡ physical_place p.package_location };
}

/// An ignore pattern.
#[derive(Drop)]
pub struct RegexDef(pub Pattern);

/// A manifest. Its registry, its pool and its lists keep the order of the payload.
pub struct Manifest {
    pub manifest_dir: Text,
    pub manifest_path: Text,
    pub location_trie: Trie<PackageLocator>,
    pub enable_top_level_fallback: bool,
    pub ignore_pattern_data: Option<RegexDef>,
    pub dependency_tree_roots: IndexSet<PackageLocator>,
    pub fallback_pool: IndexMap<Text, Option<PackageDependency>>,
    pub fallback_exclusion_list: IndexMap<Text, IndexSet<Text>>,
    pub package_registry_data: IndexMap<Text, IndexMap<Text, PackageInformation>>,
}

impl Model for Manifest {
    ghost use Rattle.std.specs.Coded.{codes};
    ghost use Rattle.es_pattern.specs.Stored.{tree_code};
    ghost use Rattle.pnp_core.specs.Manifest.{Contents};

    ghost Value = { Contents };

    ghost coded = { Prim.hlevel (codes, tree_code) };

    ghost use Rattle.pnp_core.specs.Located.{contents_of, HoldsLocations};

    ghost view = { contents_of };

    ghost invariant = { HoldsLocations };
}

impl Drop for Manifest {
    fn drop(self) {
        let Manifest {
            manifest_dir: _,
            manifest_path: _,
            location_trie: _,
            enable_top_level_fallback: _,
            ignore_pattern_data: _,
            dependency_tree_roots: _,
            fallback_pool: _,
            fallback_exclusion_list: _,
            package_registry_data: _,
        } = self;
    }
}

/// What a row binds a name to.
#[derive(Debug, PartialEq, Eq, Drop)]
pub enum Binding {
    Bound(PackageLocator),
    MissingPeer,
    Undeclared,
}
