// Requests that share what was read: an edited manifest is read anew, and so is one that is kept no longer.
use crate::project::{found, importer, manifest, project_of, put_project, tree_of};
use resolve_stack::{FileName, KeptReadings, KnownTree, Project, Resolver};
use std::alloc::Global;
use std::test::Fail;
use sugar_path::Text;
use tree_core::MemoryTree;

// Which project asks, step by step, and the package that its manifest binds then. The manifests of two or three
// projects are kept. Those that bind one package are alike byte for byte, and say a location from their own folders.
fn steps() -> &'static str {
    "/p0 one
/p5 one
/p4 one
/p3 one
/p2 one
/p1 one
/p0 one
/p5 one
/p0 two
/p3 one
/p0 one
/p1 one"
}

// Whether the next step finds the package that the manifest binds.
fn finds(
    alloc: Global,
    resolver: &mut Resolver<'_, '_>,
    tree: &mut MemoryTree,
    step: &str,
) -> Result<bool, Fail> {
    let (folder, package) = step.split_once(' ').ok_or("a package")?;
    put_project(alloc, tree, folder, package)?;
    finds_in(alloc, resolver, tree, folder, package)
}

fn finds_in(
    alloc: Global,
    resolver: &mut Resolver<'_, '_>,
    tree: &mut MemoryTree,
    folder: &str,
    package: &str,
) -> Result<bool, Fail> {
    let importer = FileName::Real(Text::of(alloc, folder)?);
    let outcome = resolver.resolve_import(alloc, tree, &importer, "foo")?;
    Ok(is_index_of(found(&outcome), folder, package))
}

// Whether a file is the index file of a package of the project in a folder.
fn is_index_of(file: &str, folder: &str, package: &str) -> bool {
    match file.strip_prefix(folder) {
        Some("/one/index.js") => package == "one",
        Some("/two/index.js") => package == "two",
        _ => false,
    }
}

// How many steps find the package, up to the first that doesn't.
fn steps_that_find(
    alloc: Global,
    resolver: &mut Resolver<'_, '_>,
    tree: &mut MemoryTree,
) -> Result<u8, Fail> {
    let mut count = 0u8;
    for step in steps().lines() {
        if !finds(alloc, resolver, tree, step)? {
            return Ok(count);
        }
        count = count.saturating_add(1);
    }
    Ok(count)
}

#[test]
fn projects_take_turns_and_are_edited(rt: HostRuntime) -> Result<(), Fail> {
    let project = project_of(rt.alloc())?;
    let kept = KeptReadings::within(rt.alloc(), 1000);
    let mut resolver = Resolver::keeping(&project, kept);
    let mut tree = MemoryTree::new(rt.alloc());
    assert_eq!(rt; steps_that_find(rt.alloc(), &mut resolver, &mut tree)?, 12);
    Ok(())
}

// Whether a request over a tree whose manifests are known finds a file.
fn finds_known(
    alloc: Global,
    tree: &mut KnownTree,
    project: &Project<'_>,
    file: &str,
) -> Result<bool, Fail> {
    let importer = importer(alloc)?;
    let outcome = tree.resolve_import(alloc, project, &importer, "foo")?;
    Ok(found(&outcome) == file)
}

// Puts a manifest that binds another package.
fn edit(alloc: Global, tree: &mut KnownTree) -> Result<(), Fail> {
    let edited = manifest(alloc, "two")?;
    Ok(tree.put("/w/.pnp.cjs", edited.as_bytes(), "/w/.pnp.cjs")?)
}

// Whether a manifest that is known from a first request is forgotten where its file is put or removed.
fn is_forgotten(alloc: Global, tree: &mut KnownTree, project: &Project<'_>) -> Result<bool, Fail> {
    let first = finds_known(alloc, tree, project, "/w/one/index.js")?;
    let again = finds_known(alloc, tree, project, "/w/one/index.js")?;
    edit(alloc, tree)?;
    let after = finds_known(alloc, tree, project, "/w/two/index.js")?;
    let removed = tree.remove("/w/.pnp.cjs");
    let without = finds_known(alloc, tree, project, "")?;
    Ok(first && again && after && removed && without)
}

#[test]
fn a_known_manifest_is_forgotten(rt: HostRuntime) -> Result<(), Fail> {
    let project = project_of(rt.alloc())?;
    let mut tree = KnownTree::of(rt.alloc(), tree_of(rt.alloc())?);
    assert!(rt; is_forgotten(rt.alloc(), &mut tree, &project)?);
    Ok(())
}
