// What the calls refuse.
ghost use Rattle.std.specs.Prelude.{◌≡◌};

use crate::PackageLocator;
use es_pattern::PatternError;
use json_reading::FromJsonError;
use std::alloc::AllocError;
use sugar_path::{List, Text};
use thiserror::Error;
use tree_core::ReadError;

/// A specifier that names no package.
#[derive(Debug, PartialEq, Eq, Drop, Error)]
#[error("{message}")]
pub struct BadSpecifier {
    pub message: Text,
    pub specifier: Text,
}

/// Why a file is no manifest.
#[derive(Clone, Copy, Debug, PartialEq, Eq)]
pub enum HydrationCause {
    /// There is no file, or its bytes aren't UTF-8.
    NotText,
    /// The text has no payload.
    NoPayload,
    /// The payload isn't the JSON of a manifest.
    BadJson,
    /// The ignore pattern is refused.
    BadPattern,
    /// The registry has no row for the top-level package.
    NoTopLevel,
}

/// A file that is no manifest.
#[derive(Debug, PartialEq, Eq, Drop, Error)]
#[error("{message}")]
pub struct FailedManifestHydration {
    pub message: Text,
    pub manifest_path: Text,
    pub cause: HydrationCause,
}

/// A name that the asking package doesn't declare.
#[derive(Debug, PartialEq, Eq, Drop, Error)]
#[error("{message}")]
pub struct UndeclaredDependency {
    pub message: Text,
    pub request: Text,
    pub dependency_name: Text,
    pub issuer_locator: PackageLocator,
    pub issuer_path: Text,
}

/// A peer of the asking package that nobody provides.
#[derive(Debug, PartialEq, Eq, Drop, Error)]
#[error("{message}")]
pub struct MissingPeerDependency {
    pub message: Text,
    pub request: Text,
    pub dependency_name: Text,
    pub issuer_locator: PackageLocator,
    pub issuer_path: Text,
    pub broken_ancestors: List<PackageLocator>,
}

/// A package that is bound and isn't there. No call makes it.
#[derive(Debug, PartialEq, Eq, Drop, Error)]
#[error("{message}")]
pub struct MissingDependency {
    pub message: Text,
    pub request: Text,
    pub dependency_name: Text,
    pub issuer_locator: PackageLocator,
    pub issuer_path: Text,
    pub dependency_locator: PackageLocator,
}

/// What a call of this crate answers where it gives no value.
#[derive(Debug, PartialEq, Eq, Drop, Error)]
pub enum Error {
    #[error("{0}")]
    BadSpecifier(BadSpecifier),
    #[error("{0}")]
    FailedManifestHydration(FailedManifestHydration),
    #[error("{0}")]
    MissingPeerDependency(MissingPeerDependency),
    #[error("{0}")]
    UndeclaredDependency(UndeclaredDependency),
    #[error("{0}")]
    MissingDependency(MissingDependency),
    /// A name is bound to a package that has no row.
    #[error("the registry has no row for {}@{}", .locator.name, .locator.reference)]
    NotInRegistry { locator: PackageLocator },
    #[error("the tree failed")]
    TreeFault,
    #[error("out of memory")]
    NoMemory,
}

/// Why a JSON value is no manifest.
#[derive(Clone, Copy, Debug, PartialEq, Eq, Error)]
pub enum ReadManifestError {
    #[error("the value isn't a manifest")]
    BadJson,
    #[error("the ignore pattern is refused")]
    BadPattern,
    #[error("out of memory")]
    NoMemory,
}

impl From<AllocError> for Error {
    ghost use Rattle.pnp_core.specs.declared.error.Error.TheVariants.{NoMemory};

    ghost from_gives = { λ _ e. e ≡ NoMemory };

    fn from(_: AllocError) -> Self {
        Error::NoMemory
    }
}

impl From<ReadError> for Error {
    ghost use Rattle.pnp_core.specs.Refusal.{into};

    ghost from_gives = { λ e raised. raised ≡ into e };

    fn from(e: ReadError) -> Self {
        match e {
            ReadError::Fault => Error::TreeFault,
            ReadError::NoMemory => Error::NoMemory,
        }
    }
}

impl From<FromJsonError> for ReadManifestError {
    ghost use Rattle.pnp_core.specs.ManifestReading.{of_reading};

    ghost from_gives = { λ e raised. raised ≡ of_reading e };

    fn from(e: FromJsonError) -> Self {
        match e {
            FromJsonError::OtherKind => ReadManifestError::BadJson,
            FromJsonError::NoMemory => ReadManifestError::NoMemory,
        }
    }
}

impl From<PatternError> for ReadManifestError {
    ghost use Rattle.pnp_core.specs.ManifestReading.{of_pattern};

    ghost from_gives = { λ e raised. raised ≡ of_pattern e };

    fn from(e: PatternError) -> Self {
        match e {
            PatternError::NoMemory => ReadManifestError::NoMemory,
            _ => ReadManifestError::BadPattern,
        }
    }
}
