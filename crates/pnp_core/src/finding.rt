// The manifest nearest to a path.
ghost use Rattle.std.specs.Prelude.{IfOk, IfErr, IfSome};
ghost use Rattle.sugar_path.specs.Path.{IsCleanPath, path_in};
ghost use Rattle.tree_core.specs.Asks.{Asks, seen};
ghost use Rattle.pnp_core.specs.Finding.{finding};
ghost use Rattle.pnp_core.specs.Owner.{IsReady};
ghost use Rattle.pnp_core.specs.Refusal.{pnp, IsOfManifest};

use crate::{Error, Manifest, closest_manifest, load_pnp_manifest};
use std::alloc::Global;
use sugar_path::CleanPath;
use tree_core::{Asker, Recorder, Tree};

/// The manifest in the first `.pnp.cjs` in a path and the folders above it: a ready one, or `FailedManifestHydration`
/// with its cause. The path is a clean absolute text. The other errors are the tree's, and want of memory.
pub fn find_pnp_manifest<'t, T: Tree>(
    alloc: Global,
    tree: &mut Recorder<'t, T>,
    path: &str,
) -> Result<Option<Manifest>, Error>
    requires { IsCleanPath path.now }
    ensures asks { Asks
        (⟦<Recorder<'t, T> as Asker>⟧.asking tree.old) (⟦<Recorder<'t, T> as Asker>⟧.asking tree.new)
        (seen pnp result) (finding (path_in path.now)) }
    ensures ready { IfOk result (λ found. IfSome found IsReady) }
    ensures errors { IfErr result IsOfManifest }
{
    let path = CleanPath::of(alloc, path)?;
    let Some(file) = closest_manifest(alloc, tree, &path)? else {
        return Ok(None);
    };
    let manifest = load_pnp_manifest(alloc, tree, file.as_str())?;
    Ok(Some(manifest))
}
