// Why a path could not be made.
ghost use Rattle.std.specs.Prelude.{◌≡◌};
ghost use Rattle.sugar_path.specs.declared.faults.TryError.TheVariants.{NoMemory};

use std::alloc::AllocError;
use thiserror::Error;

/// Why a call that may need the working folder gave no path.
#[derive(Debug, Clone, Copy, PartialEq, Eq, Error)]
pub enum TryError {
    /// The working folder is needed, and it is unknown.
    #[error("the working folder is unknown")]
    NoCwd,
    #[error("out of memory")]
    NoMemory,
}

impl From<AllocError> for TryError {
    ghost from_gives = { λ _ fault. fault ≡ NoMemory };

    fn from(_: AllocError) -> TryError {
        TryError::NoMemory
    }
}
