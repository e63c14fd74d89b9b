// Why nothing is read from a value.
ghost use Rattle.std.specs.Prelude.{◌≡◌};

use std::alloc::{AllocError, AllocFailed};
use thiserror::Error;

/// Why nothing is read from a JSON value.
#[derive(Clone, Copy, Debug, PartialEq, Eq, Error)]
pub enum FromJsonError {
    /// The value, or one inside it that is read, is of another kind or missing.
    #[error("the value is of another kind")]
    OtherKind,
    /// No memory was found.
    #[error("out of memory")]
    NoMemory,
}

impl From<AllocError> for FromJsonError {
    ghost use Rattle.json_reading.specs.declared.error.FromJsonError.TheVariants.{NoMemory};

    ghost from_gives = { λ _ e. e ≡ NoMemory };

    fn from(_: AllocError) -> Self {
        FromJsonError::NoMemory
    }
}

impl<T: Drop> From<AllocFailed<T>> for FromJsonError {
    ghost use Rattle.json_reading.specs.declared.error.FromJsonError.TheVariants.{NoMemory};

    ghost from_gives = { λ _ e. e ≡ NoMemory };

    fn from(_: AllocFailed<T>) -> Self {
        FromJsonError::NoMemory
    }
}
