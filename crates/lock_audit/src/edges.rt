// The bindings of a manifest's rows.
ghost use Rattle.std.specs.Prelude.{◌≡◌, ◌++◌, IfOk, OnOk, flat_map, map};
ghost use Rattle.std.specs.List.{filter_map};
ghost use Rattle.pnp_core.specs.Binding.{bound_to};
ghost use Rattle.pnp_core.specs.Manifest.{locator, rows, rows_under};
ghost use Rattle.lock_audit.specs.Edges.{edge, edge_of, edges, edges_of_row};

use indexmap::IndexMap;
use pnp_core::{Manifest, PackageDependency, PackageInformation, PackageLocator};
use std::alloc::{AllocError, Global};
use sugar_path::Text;

// A name that a row binds, with the row's package and the one that the name is bound to.
#[derive(Drop)]
pub(crate) struct RowEdge {
    pub owner: PackageLocator,
    pub name: Text,
    pub bound: PackageLocator,
}

// The edges of a manifest, row by row in the registry's order.
pub(crate) fn edges_of(alloc: Global, manifest: &Manifest) -> Result<Vec<RowEdge>, AllocError>
    ensures { IfOk result (λ found. found.items ≡ edges manifest.now) }
{
    edges_in(alloc, &manifest.package_registry_data)
}

// The edges of a registry's rows.
fn edges_in(
    alloc: Global,
    registry: &IndexMap<Text, IndexMap<Text, PackageInformation>>,
) -> Result<Vec<RowEdge>, AllocError>
    ensures { IfOk result (λ found. found.items
        ≡ flat_map edges_of_row (rows (map (λ named. (named.0, named.1.entries)) registry.now.entries))) }
{
    let mut found = Vec::new(alloc);
    for (name, references) in registry.iter() {
        put_rows(alloc, &mut found, name, references)?;
    }
    Ok(found)
}

// Puts the edges of a name's rows.
fn put_rows(
    alloc: Global,
    found: &mut Vec<RowEdge>,
    name: &Text,
    references: &IndexMap<Text, PackageInformation>,
) -> Result<(), AllocError>
    ensures { OnOk result (found.new.items
        ≡ found.old.items ++ flat_map edges_of_row (rows_under (name.now, references.now.entries))) }
{
    for (reference, row) in references.iter() {
        put_row(alloc, found, name, reference, row)?;
    }
    Ok(())
}

// Puts the edges of a row. Each holds the row's package, so its texts are shared by them.
fn put_row(
    alloc: Global,
    found: &mut Vec<RowEdge>,
    name: &Text,
    reference: &Text,
    row: &PackageInformation,
) -> Result<(), AllocError>
    ensures { OnOk result (found.new.items ≡ found.old.items
        ++ edges_of_row (locator name.now reference.now, row.now)) }
{
    let owner = PackageLocator {
        name: Text::shared(alloc, name.as_str())?,
        reference: Text::shared(alloc, reference.as_str())?,
    };
    put_bindings(alloc, found, &owner, &row.package_dependencies)
}

// Puts the edges of an owner's bindings.
fn put_bindings(
    alloc: Global,
    found: &mut Vec<RowEdge>,
    owner: &PackageLocator,
    bindings: &IndexMap<Text, Option<PackageDependency>>,
) -> Result<(), AllocError>
    ensures { OnOk result (found.new.items
        ≡ found.old.items ++ filter_map (edge_of owner.now) bindings.now.entries) }
{
    for (name, dependency) in bindings.iter() {
        if let Some(dependency) = dependency {
            found.push(edge(alloc, owner, name, dependency)?)?;
        }
    }
    Ok(())
}

// The edge of a name that isn't bound to null.
fn edge(
    alloc: Global,
    owner: &PackageLocator,
    name: &Text,
    dependency: &PackageDependency,
) -> Result<RowEdge, AllocError>
    ensures { IfOk result (λ found. found ≡ edge owner.now name.now dependency.now) }
{
    Ok(RowEdge {
        owner: owner.try_clone(alloc)?,
        name: name.try_clone(alloc)?,
        bound: bound_to(alloc, name, dependency)?,
    })
}

// The package that a name is bound to.
fn bound_to(
    alloc: Global,
    name: &Text,
    dependency: &PackageDependency,
) -> Result<PackageLocator, AllocError>
    ensures { IfOk result (λ bound. bound ≡ bound_to name.now dependency.now) }
{
    let (name, reference) = match dependency {
        PackageDependency::Reference(reference) => (name, reference),
        PackageDependency::Alias(name, reference) => (name, reference),
    };
    Ok(PackageLocator {
        name: name.try_clone(alloc)?,
        reference: reference.try_clone(alloc)?,
    })
}
