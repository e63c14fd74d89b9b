// Why a text isn't cut into tokens.
use std::alloc::{AllocError, AllocFailed};
use thiserror::Error;

/// What is wrong with a text.
#[derive(Clone, Copy, Debug, PartialEq, Eq)]
pub enum Cause {
    /// The text ends within a comment.
    Comment,
    /// The text, or the line, ends within a string.
    StringLiteral,
    /// The text ends within a template.
    Template,
    /// The text, or the line, ends within a regular expression.
    RegularExpression,
    /// No token begins with this character.
    Character,
}

/// Why the imports of a text aren't told.
#[derive(Clone, Copy, Debug, PartialEq, Eq, Error)]
pub enum ScanError {
    /// The text is no text of the language: no token is at this place, which counts the bytes before it.
    #[error("no token at byte {place}")]
    Refused { place: usize, cause: Cause },
    /// There is no memory left.
    #[error("out of memory")]
    NoMemory,
}

impl From<AllocError> for ScanError {
    ghost use Rattle.std.specs.Prelude.{◌≡◌};
    ghost use Rattle.es_imports.specs.declared.refusal.ScanError.TheVariants.{NoMemory};

    ghost from_gives = { λ _ e. e ≡ NoMemory };

    fn from(_: AllocError) -> Self {
        ScanError::NoMemory
    }
}

impl<T: Drop> From<AllocFailed<T>> for ScanError {
    ghost use Rattle.std.specs.Prelude.{◌≡◌};
    ghost use Rattle.es_imports.specs.declared.refusal.ScanError.TheVariants.{NoMemory};

    ghost from_gives = { λ _ e. e ≡ NoMemory };

    fn from(_: AllocFailed<T>) -> Self {
        ScanError::NoMemory
    }
}
