// The files of a generated project.
ghost use Rattle.std.specs.Prelude.{◌≡◌, IfOk, OnOk, string_bytes};
ghost use Rattle.generated_project.specs.Generated.{
  generated_tree,
  numbers,
  package_file,
  top_files,
  with_packages,
  with_text,
};

use crate::manifest::manifest_text;
use std::alloc::{AllocError, Global};
use tree_core::MemoryTree;

/// The tree of the files of a project of so many packages.
pub fn generated_tree(alloc: Global, size: usize) -> Result<MemoryTree, AllocError>
    ensures { IfOk result (λ tree. tree.files ≡ generated_tree size) }
{
    let mut tree = top_files(alloc, size)?;
    put_packages(alloc, &mut tree, size)?;
    Ok(tree)
}

// The manifest, and the file at the top level.
#[tactic(auto, unfolding(crate::specs::Generated::top_files))]
fn top_files(alloc: Global, size: usize) -> Result<MemoryTree, AllocError>
    ensures { IfOk result (λ tree. tree.files ≡ top_files size) }
{
    let manifest = manifest_text(alloc, size)?;
    let mut tree = MemoryTree::new(alloc);
    put(&mut tree, "/g/.pnp.cjs", manifest.as_str())?;
    put(&mut tree, "/g/a.js", "")?;
    Ok(tree)
}

// Puts in the files of the packages, in order.
fn put_packages(alloc: Global, tree: &mut MemoryTree, size: usize) -> Result<(), AllocError>
    ensures { OnOk result (tree.new.files ≡ with_packages tree.old.files (numbers size)) }
{
    for i in 0..size {
        let path = package_file(alloc, i + 1)?;
        put(tree, path.as_str(), "")?;
    }
    Ok(())
}

// Puts one file in. No path of the project is refused, but that isn't shown here: a refusal would count as want of
// memory.
fn put(tree: &mut MemoryTree, path: &str, text: &str) -> Result<(), AllocError>
    ensures { OnOk result (tree.new.files ≡ with_text tree.old.files path.now text.now) }
{
    tree.put(path, text.as_bytes(), path)
        .map_err(|_| AllocError)
}

// The path of a package's file.
pub(crate) fn package_file(alloc: Global, k: usize) -> Result<String, AllocError>
    ensures { IfOk result (λ path. string_bytes path ≡ package_file k) }
{
    format!(in alloc; "/g/p/{k}/index.js")
}
