// Why the requests of a bundle aren't replayed.
ghost use Rattle.std.specs.Prelude.{◌≡◌};

use std::alloc::{AllocError, AllocFailed};
use thiserror::Error;
use tree_core::Question;

/// Why the requests of a bundle aren't replayed.
#[derive(Debug, Drop, PartialEq, Eq, Error)]
pub enum BundleReplayError {
    /// The order of a request puts a question to which the bundle has no reply: the first such request, from 0, and the
    /// first such question of its order.
    #[error("the bundle has no reply to a question of request {request}")]
    NotRecorded { request: usize, question: Question },
    /// Out of memory.
    #[error("no memory was found")]
    NoMemory,
}

impl From<AllocError> for BundleReplayError {
    ghost use Rattle.trail_bundle.specs.declared.replay_error.BundleReplayError.TheVariants.{NoMemory};

    ghost from_gives = { λ _ e. e ≡ NoMemory };

    fn from(_: AllocError) -> Self {
        BundleReplayError::NoMemory
    }
}

impl<T: Drop> From<AllocFailed<T>> for BundleReplayError {
    ghost use Rattle.trail_bundle.specs.declared.replay_error.BundleReplayError.TheVariants.{NoMemory};

    ghost from_gives = { λ _ e. e ≡ NoMemory };

    fn from(_: AllocFailed<T>) -> Self {
        BundleReplayError::NoMemory
    }
}
