// Why a text gives no bundle.
ghost use Rattle.std.specs.Prelude.{◌≡◌};

use std::alloc::{AllocError, AllocFailed};
use thiserror::Error;

/// Why a text gives no bundle.
#[derive(Clone, Copy, Debug, PartialEq, Eq, Error)]
pub enum DecodeError {
    /// No bundle's text begins with this many of the text's first lines. The end of the text counts as a line.
    #[error("line {line} is not that of a bundle")]
    NotABundle { line: usize },
    /// Out of memory.
    #[error("no memory was found")]
    NoMemory,
}

impl From<AllocError> for DecodeError {
    ghost use Rattle.trail_bundle.specs.declared.decode_error.DecodeError.TheVariants.{NoMemory};

    ghost from_gives = { λ _ e. e ≡ NoMemory };

    fn from(_: AllocError) -> Self {
        DecodeError::NoMemory
    }
}

impl<T: Drop> From<AllocFailed<T>> for DecodeError {
    ghost use Rattle.trail_bundle.specs.declared.decode_error.DecodeError.TheVariants.{NoMemory};

    ghost from_gives = { λ _ e. e ≡ NoMemory };

    fn from(_: AllocFailed<T>) -> Self {
        DecodeError::NoMemory
    }
}
