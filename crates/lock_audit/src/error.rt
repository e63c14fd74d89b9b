// Why there is no audit.
use pnp_core::HydrationCause;
use thiserror::Error;
use tree_core::ResolveError;

/// Why there is no audit, in the order in which the causes count.
#[derive(Clone, Copy, Debug, PartialEq, Eq, Error)]
pub enum AuditError {
    /// The project has no lock.
    #[error("the project has no lock")]
    NoLock,
    /// The file is no manifest.
    #[error("the file is no manifest: {cause:?}")]
    Hydration {
        /// The first cause against it.
        cause: HydrationCause,
    },
    /// A question to the tree failed. Its count of faults rose, or stands at its last value.
    #[error("a question to the tree failed")]
    TreeFault,
    /// No memory was found.
    #[error("no memory was found")]
    NoMemory,
}

impl From<ResolveError<HydrationCause>> for AuditError {
    ghost use Rattle.std.specs.Prelude.{◌≡◌};
    ghost use Rattle.lock_audit.specs.Refusal.{of_loading};

    ghost from_gives = { λ e raised. raised ≡ of_loading e };

    fn from(e: ResolveError<HydrationCause>) -> Self {
        match e {
            ResolveError::Refused(cause) => AuditError::Hydration { cause },
            ResolveError::TreeFault => AuditError::TreeFault,
            ResolveError::NoMemory => AuditError::NoMemory,
        }
    }
}
