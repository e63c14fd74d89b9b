// Why a trail isn't added to a bundle.
ghost use Rattle.std.specs.Prelude.{◌≡◌};

use std::alloc::{AllocError, AllocFailed};
use thiserror::Error;
use tree_core::{Question, Reply};

/// Why a trail isn't added to a bundle.
#[derive(Debug, Drop, PartialEq, Eq, Error)]
pub enum BundleError {
    /// The trail's first reply to a question is another one than the bundle's: the first such question of the trail.
    #[error("the bundle has another reply to a question")]
    Conflict {
        question: Question,
        /// The reply of the bundle.
        kept: Reply,
        /// The reply of the trail.
        given: Reply,
    },
    /// Out of memory.
    #[error("no memory was found")]
    NoMemory,
}

impl From<AllocError> for BundleError {
    ghost use Rattle.trail_bundle.specs.declared.bundle_error.BundleError.TheVariants.{NoMemory};

    ghost from_gives = { λ _ e. e ≡ NoMemory };

    fn from(_: AllocError) -> Self {
        BundleError::NoMemory
    }
}

impl<T: Drop> From<AllocFailed<T>> for BundleError {
    ghost use Rattle.trail_bundle.specs.declared.bundle_error.BundleError.TheVariants.{NoMemory};

    ghost from_gives = { λ _ e. e ≡ NoMemory };

    fn from(_: AllocFailed<T>) -> Self {
        BundleError::NoMemory
    }
}
