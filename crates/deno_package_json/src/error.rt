// Why a package.json isn't loaded.
ghost use Rattle.std.specs.Prelude.{◌≡◌};

use std::alloc::AllocError;
use sugar_path::Text;
use thiserror::Error;

/// Why a package.json isn't loaded, with the path of its file. The first fault in this order is told.
#[derive(Debug, Drop, Error)]
pub enum PackageJsonLoadError {
    /// The reader failed. Its count of faults rose, or stands at its last value.
    #[error("Failed reading '{path}'.")]
    Io { path: Text },
    /// The text isn't JSON of at most 127 levels.
    #[error("Malformed package.json '{path}'.")]
    Deserialize { path: Text },
    /// A number in the JSON is a float.
    #[error("The package.json '{path}' holds a float.")]
    HoldsFloat { path: Text },
    /// The object `exports` has keys that begin with `.` and keys that don't.
    #[error("The exports of the package.json '{path}' mix subpaths and conditions.")]
    MixedExports { path: Text },
    #[error("out of memory")]
    NoMemory,
}

impl From<AllocError> for PackageJsonLoadError {
    ghost use Rattle.deno_package_json.specs.declared.error.PackageJsonLoadError.TheVariants.{NoMemory};

    ghost from_gives = { λ _ e. e ≡ NoMemory };

    fn from(_: AllocError) -> Self {
        PackageJsonLoadError::NoMemory
    }
}
