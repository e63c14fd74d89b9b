// What the calls refuse.
ghost use Rattle.std.specs.Prelude.{◌≡◌};

use std::alloc::{AllocError, AllocFailed};
use thiserror::Error;

/// Why a text gives no version.
#[derive(Clone, Copy, Debug, PartialEq, Eq, Error)]
pub enum NpmVersionParseError {
    #[error("the text isn't a version")]
    NotAVersion,
    #[error("out of memory")]
    NoMemory,
}

impl From<AllocError> for NpmVersionParseError {
    ghost use Rattle.npm_req.specs.declared.error.NpmVersionParseError.TheVariants.{NoMemory};

    ghost from_gives = { λ _ e. e ≡ NoMemory };

    fn from(_: AllocError) -> Self {
        NpmVersionParseError::NoMemory
    }
}

/// Why a text gives no requirement.
#[derive(Clone, Copy, Debug, PartialEq, Eq, Error)]
pub enum NpmVersionReqParseError {
    /// The text is neither a range nor a tag. The place counts the bytes before the first part or partial version that
    /// doesn't read.
    #[error("Invalid npm version requirement. Unexpected character.")]
    Unexpected { place: usize },
    #[error("out of memory")]
    NoMemory,
}

impl From<AllocError> for NpmVersionReqParseError {
    ghost use Rattle.npm_req.specs.declared.error.NpmVersionReqParseError.TheVariants.{NoMemory};

    ghost from_gives = { λ _ e. e ≡ NoMemory };

    fn from(_: AllocError) -> Self {
        NpmVersionReqParseError::NoMemory
    }
}

/// Why a text names no package with a requirement.
#[derive(Clone, Copy, Debug, PartialEq, Eq, Error)]
pub enum PackageReqParseError {
    #[error("the name is empty")]
    EmptyName,
    /// The requirement is refused, at this place of its own text.
    #[error("Invalid npm version requirement. Unexpected character.")]
    Req { place: usize },
    #[error("out of memory")]
    NoMemory,
}

impl From<AllocError> for PackageReqParseError {
    ghost use Rattle.npm_req.specs.declared.error.PackageReqParseError.TheVariants.{NoMemory};

    ghost from_gives = { λ _ e. e ≡ NoMemory };

    fn from(_: AllocError) -> Self {
        PackageReqParseError::NoMemory
    }
}

impl From<NpmVersionReqParseError> for PackageReqParseError {
    ghost use Rattle.npm_req.specs.PackageRefusal.{in_package};

    ghost from_gives = { λ e raised. raised ≡ in_package e };

    fn from(e: NpmVersionReqParseError) -> Self {
        match e {
            NpmVersionReqParseError::Unexpected { place } => PackageReqParseError::Req { place },
            NpmVersionReqParseError::NoMemory => PackageReqParseError::NoMemory,
        }
    }
}

// Why the front of a text isn't read.
#[derive(Drop)]
pub(crate) enum Refusal {
    // A part or a partial version doesn't read where so many bytes are left.
    Unexpected { left: usize },
    NoMemory,
}

impl From<AllocError> for Refusal {
    ghost use Rattle.npm_req.specs.declared.error.Refusal.TheVariants.{NoMemory};

    ghost from_gives = { λ _ e. e ≡ NoMemory };

    fn from(_: AllocError) -> Self {
        Refusal::NoMemory
    }
}

impl<T: Drop> From<AllocFailed<T>> for Refusal {
    ghost use Rattle.npm_req.specs.declared.error.Refusal.TheVariants.{NoMemory};

    ghost from_gives = { λ _ e. e ≡ NoMemory };

    fn from(_: AllocFailed<T>) -> Self {
        Refusal::NoMemory
    }
}
