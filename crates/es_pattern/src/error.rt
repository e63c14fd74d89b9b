// Why a text is no pattern.
ghost use Rattle.std.specs.Prelude.{◌≡◌};

use std::alloc::{AllocError, AllocFailed};
use thiserror::Error;

/// Why a text is no pattern. A place counts the bytes before it.
#[derive(Clone, Copy, Debug, PartialEq, Eq, Error)]
pub enum PatternError {
    /// No pattern begins with the text up to and including the character at the place, or the text
    /// ends there too early.
    #[error("no pattern goes on so at byte {place}")]
    Syntax { place: usize },
    /// A form of ECMAScript that this crate leaves out begins at the place.
    #[error("this form isn't supported, at byte {place}")]
    Unsupported { place: usize },
    /// A count, a product of nested counts, or a depth of groups is beyond its limit, at the
    /// quantifier or group at the place.
    #[error("too large a count at byte {place}")]
    CountTooLarge { place: usize },
    /// There is no memory left.
    #[error("out of memory")]
    NoMemory,
}

impl From<AllocError> for PatternError {
    ghost use Rattle.es_pattern.specs.declared.error.PatternError.TheVariants.{NoMemory};

    ghost from_gives = { λ _ e. e ≡ NoMemory };

    fn from(_: AllocError) -> Self {
        PatternError::NoMemory
    }
}

impl<T: Drop> From<AllocFailed<T>> for PatternError {
    ghost use Rattle.es_pattern.specs.declared.error.PatternError.TheVariants.{NoMemory};

    ghost from_gives = { λ _ e. e ≡ NoMemory };

    fn from(_: AllocFailed<T>) -> Self {
        PatternError::NoMemory
    }
}
