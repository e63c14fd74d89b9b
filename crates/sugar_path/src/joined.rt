// One path behind another.
ghost use Rattle.std.specs.Prelude.{◌≡◌, IfOk};
ghost use Rattle.sugar_path.specs.Path.{join};
ghost use Rattle.sugar_path.specs.PathTypes.{path_bytes};

use crate::path::{Path, PathBuf};
use crate::reading::{is_absolute, push_part};
use std::alloc::{AllocError, Global};

/// A path behind a folder, with one separator between. An absolute path stands alone.
pub fn join(alloc: Global, base: Path<'_>, path: Path<'_>) -> Result<PathBuf, AllocError>
    ensures { IfOk result (λ p. p ≡ join (path_bytes base.entry) (path_bytes path.entry)) }
{
    if is_absolute(path.bytes()) {
        return PathBuf::of(alloc, path);
    }
    let mut bytes = Vec::from_slice(alloc, base.bytes())?;
    push_part(&mut bytes, path.bytes())?;
    Ok(PathBuf::from(bytes))
}
