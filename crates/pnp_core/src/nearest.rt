// The manifest file nearest to a path.
ghost use Rattle.std.specs.Prelude.{IfErr};
ghost use Rattle.sugar_path.specs.Path.{IsCleanPath, path_in};
ghost use Rattle.tree_core.specs.Asks.{Asks, seen};
ghost use Rattle.pnp_core.specs.Refusal.{pnp, IsOfTree};
ghost use Rattle.pnp_core.specs.Nearest.{nearest, nearest_text};

use crate::Error;
use std::alloc::Global;
use sugar_path::{CleanPath, Text};
use tree_core::{Asker, ReadError, Recorder, Tree};

/// The text of the path of the first `.pnp.cjs` in a path and the folders above it. The path is a clean absolute text.
/// The errors are the tree's, and want of memory.
pub fn find_closest_pnp_manifest_path<'t, T: Tree>(
    alloc: Global,
    tree: &mut Recorder<'t, T>,
    path: &str,
) -> Result<Option<Text>, Error>
    requires { IsCleanPath path.now }
    ensures asks { Asks
        (⟦<Recorder<'t, T> as Asker>⟧.asking tree.old) (⟦<Recorder<'t, T> as Asker>⟧.asking tree.new)
        (seen pnp result) (nearest_text (path_in path.now)) }
    ensures errors { IfErr result IsOfTree }
{
    let path = CleanPath::of(alloc, path)?;
    let Some(manifest) = closest_manifest(alloc, tree, &path)? else {
        return Ok(None);
    };
    let text = manifest.into_text()?;
    Ok(Some(text))
}

/// The path of the first `.pnp.cjs` in a path and the folders above it.
pub fn closest_manifest<R: Asker>(
    alloc: Global,
    tree: &mut R,
    path: &CleanPath,
) -> Result<Option<CleanPath>, ReadError>
    ensures { Asks (R.asking tree.old) (R.asking tree.new) result (nearest path.now) }
{
    let mut folder = path.try_clone(alloc)?;
    'up: loop {
        let manifest = folder.child(alloc, ".pnp.cjs")?;
        if tree.exists(&manifest)? {
            return Ok(Some(manifest));
        }
        if !folder.go_up() {
            return Ok(None);
        }
    }
}
