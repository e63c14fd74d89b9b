// Which package owns a path.
ghost use Rattle.std.specs.Prelude.{◌≡◌, IfOk};
ghost use Rattle.std.specs.Option.{option_copied};
ghost use Rattle.std.specs.Str.{chars};
ghost use Rattle.sugar_path.specs.Path.{IsCleanPath, text_of};
ghost use Rattle.es_pattern.specs.Found.{is_found};
ghost use Rattle.pnp_core.specs.Owner.{IsReady, is_ignored, owner, owner_of_text, text_from};

use crate::{Manifest, PackageLocator, normalize_path};
use es_pattern::Pattern;
use std::alloc::{AllocError, Global};
use sugar_path::CleanPath;

/// The package that owns a path: of the rows that aren't discarded, the last one at the nearest location that the path
/// is or lies below. Nothing owns a path where the ignore pattern is found in its text from the manifest's folder.
pub fn find_locator<'a>(
    alloc: Global,
    manifest: &'a Manifest,
    path: &str,
) -> Result<Option<&'a PackageLocator>, AllocError>
    requires ready { IsReady manifest.now }
    requires clean { IsCleanPath path.now }
    ensures { IfOk result (λ owner. option_copied owner ≡ owner_of_text manifest.now path.now) }
{
    let path = CleanPath::of(alloc, path)?;
    let owner = owner_of(alloc, manifest, &path)?;
    Ok(owner)
}

/// The package that owns a path that is clean already. Without an ignore pattern, and without `\` in the path, it takes
/// no memory.
pub fn owner_of<'a>(
    alloc: Global,
    manifest: &'a Manifest,
    path: &CleanPath,
) -> Result<Option<&'a PackageLocator>, AllocError>
    requires { IsReady manifest.now }
    ensures { IfOk result (λ found. option_copied found ≡ owner manifest.now path.now) }
{
    if is_ignored(alloc, manifest, path)? {
        return Ok(None);
    }
    let owner = manifest.location_trie.nearest_value(alloc, path)?;
    Ok(owner)
}

// Whether the ignore pattern is found in the path's text from the manifest's folder.
fn is_ignored(alloc: Global, manifest: &Manifest, path: &CleanPath) -> Result<bool, AllocError>
    requires { IsCleanPath manifest.now.manifest_dir }
    ensures { IfOk result (λ ignored. ignored ≡ is_ignored manifest.now (text_of path.now)) }
{
    match &manifest.ignore_pattern_data {
        None => Ok(false),
        Some(ignored) => is_found_from(alloc, &ignored.0, manifest.manifest_dir.as_str(), path),
    }
}

// Whether a pattern is found in the path's text from a folder.
fn is_found_from(
    alloc: Global,
    pattern: &Pattern,
    folder: &str,
    path: &CleanPath,
) -> Result<bool, AllocError>
    requires { IsCleanPath folder.now }
    ensures { IfOk result (λ found.
        found ≡ is_found pattern.now (chars (text_from folder.now (text_of path.now)))) }
{
    let folder = CleanPath::of(alloc, folder)?;
    let relative = path.relative_to(alloc, &folder)?;
    let text = normalize_path(alloc, relative.as_str())?;
    pattern.is_found(alloc, text.as_str())
}
