// Why a search over a tree has no answer.
ghost use Rattle.std.specs.Prelude.{◌≡◌};

use crate::ReadError;
use std::alloc::AllocError;

/// Why a search has no answer: its own refusal, or what broke it off.
#[derive(Debug, Drop, PartialEq, Eq)]
pub enum ResolveError<X> {
    /// The order of search ends in this refusal.
    Refused(X),
    /// A question to the tree failed. Its count of faults rose, or stands at its last value.
    TreeFault,
    /// Out of memory.
    NoMemory,
}

impl<X> ResolveError<X> {
    ghost use Rattle.std.specs.Prelude.{◌≡◌};
    ghost use Rattle.tree_core.specs.Resolving.{kind, IsMapped};

    /// The refusal, or else the tree's error.
    pub fn refusal(self) -> Result<X, ReadError>
        ensures { result ≡ kind self }
    {
        match self {
            ResolveError::Refused(refusal) => Ok(refusal),
            ResolveError::TreeFault => Err(ReadError::Fault),
            ResolveError::NoMemory => Err(ReadError::NoMemory),
        }
    }

    /// A refusal becomes what the function makes of it, and each other error stays.
    pub fn map_refused<Y, F: FnOnce(X) -> Y>(self, f: F) -> ResolveError<Y>
        requires { F.IsAlwaysCallable f }
        ensures { IsMapped (F.post f) self result }
    {
        match self {
            ResolveError::Refused(refusal) => ResolveError::Refused(f(refusal)),
            ResolveError::TreeFault => ResolveError::TreeFault,
            ResolveError::NoMemory => ResolveError::NoMemory,
        }
    }
}

impl<X> From<ReadError> for ResolveError<X> {
    ghost use Rattle.tree_core.specs.Resolving.{into};

    ghost from_gives = { λ e raised. raised ≡ into e };

    fn from(e: ReadError) -> Self {
        match e {
            ReadError::Fault => ResolveError::TreeFault,
            ReadError::NoMemory => ResolveError::NoMemory,
        }
    }
}

impl<X> From<AllocError> for ResolveError<X> {
    ghost use Rattle.tree_core.specs.declared.resolve_error.ResolveError.TheVariants.{NoMemory};

    ghost from_gives = { λ _ e. e ≡ NoMemory };

    fn from(_: AllocError) -> Self {
        ResolveError::NoMemory
    }
}
