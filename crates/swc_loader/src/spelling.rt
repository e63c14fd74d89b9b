// By which name a file is answered.
ghost use Rattle.std.specs.Prelude.{◌≡◌, IfOk};
ghost use Rattle.tree_core.specs.Asks.{Asks};
ghost use Rattle.swc_loader.specs.Spelling.{canonical_name, from_working_folder, spelled};

use crate::{FileName, NodeModulesResolver};
use std::alloc::{AllocError, Global};
use sugar_path::{CleanPath, Text};
use tree_core::{Asker, ReadError};

// The name that a file is answered by: its canonical name, or, where links are preserved, its path as it is written.
pub(crate) fn spelled_name<R: Asker>(
    alloc: Global,
    tree: &mut R,
    resolver: &NodeModulesResolver,
    file: &CleanPath,
    relative: bool,
) -> Result<FileName, ReadError>
    ensures { Asks (R.asking tree.old) (R.asking tree.new) result
        (spelled resolver.now file.now relative) }
{
    if !resolver.preserves_symlinks() {
        return canonical(alloc, tree, file);
    }
    let path = if relative {
        relative_path(alloc, resolver.cwd(), file)?
    } else {
        file.to_text(alloc)?
    };
    Ok(FileName::Real(path))
}

// The canonical name of a file, or its path where the tree gives none.
fn canonical<R: Asker>(alloc: Global, tree: &mut R, file: &CleanPath) -> Result<FileName, ReadError>
    ensures { Asks (R.asking tree.old) (R.asking tree.new) result (canonical_name file.now) }
{
    match tree.canonical(file)? {
        Some(name) => Ok(FileName::Real(name)),
        None => Ok(FileName::Real(file.to_text(alloc)?)),
    }
}

// The path from the working folder to a file.
fn relative_path(alloc: Global, cwd: &CleanPath, file: &CleanPath) -> Result<Text, AllocError>
    ensures { IfOk result (λ t. t ≡ from_working_folder cwd.now file.now) }
{
    file.relative_to(alloc, cwd)
}
