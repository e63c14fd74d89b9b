// Why a text is no lock file.
ghost use Rattle.std.specs.Prelude.{◌≡◌};

use std::alloc::{AllocError, AllocFailed};
use thiserror::Error;

/// What is wrong with a text. Parts are read in order, and the first that is wrong is told; an entry's causes are tried
/// in the order below.
#[derive(Clone, Copy, Debug, PartialEq, Eq)]
pub enum LockCause {
    /// The text doesn't begin with two whole lines, whatever they say.
    Header,
    /// What follows the header of a text that isn't of version 1 is no metadata.
    Metadata,
    /// The text's last line has no line end, and ends in a blank.
    LastLine,
    /// The entry's first line has no descriptors.
    Descriptors,
    /// What follows the entry's first line has no line end, and none of an item's forms fits it.
    NoItem,
    /// A property `optional` is neither `true` nor `false`.
    Optional,
    /// The entry has no version.
    NoVersion,
}

/// Why a text couldn't be read.
#[derive(Debug, PartialEq, Eq, Drop, Error)]
pub enum YarnLockError {
    /// The text is no lock file. The place counts bytes: it is 0 for the header, else where the metadata or the entry
    /// begins.
    #[error("no lock file: {cause:?} at {place}")]
    Parser { place: usize, cause: LockCause },
    #[error("out of memory")]
    NoMemory,
}

/// Why a text gives no entry.
#[derive(Drop)]
pub(crate) enum EntryError {
    Refused(LockCause),
    NoMemory,
}

impl EntryError {
    ghost use Rattle.yarn_lock_parser.specs.Reader.{error_at};

    /// The error of a lock file with the entry at a place.
    pub(crate) fn at(self, place: usize) -> YarnLockError
        ensures { result ≡ error_at place self }
    {
        match self {
            EntryError::Refused(cause) => YarnLockError::Parser { place, cause },
            EntryError::NoMemory => YarnLockError::NoMemory,
        }
    }
}

impl From<AllocError> for EntryError {
    ghost use Rattle.yarn_lock_parser.specs.declared.error.EntryError.TheVariants.{NoMemory};

    ghost from_gives = { λ _ e. e ≡ NoMemory };

    fn from(_: AllocError) -> Self {
        EntryError::NoMemory
    }
}

impl<T: Drop> From<AllocFailed<T>> for EntryError {
    ghost use Rattle.yarn_lock_parser.specs.declared.error.EntryError.TheVariants.{NoMemory};

    ghost from_gives = { λ _ e. e ≡ NoMemory };

    fn from(_: AllocFailed<T>) -> Self {
        EntryError::NoMemory
    }
}

impl From<LockCause> for EntryError {
    ghost use Rattle.yarn_lock_parser.specs.declared.error.EntryError.TheVariants.{Refused};

    ghost from_gives = { λ cause e. e ≡ Refused cause };

    fn from(cause: LockCause) -> Self {
        EntryError::Refused(cause)
    }
}

impl From<AllocError> for YarnLockError {
    ghost use Rattle.yarn_lock_parser.specs.declared.error.YarnLockError.TheVariants.{NoMemory};

    ghost from_gives = { λ _ e. e ≡ NoMemory };

    fn from(_: AllocError) -> Self {
        YarnLockError::NoMemory
    }
}

impl<T: Drop> From<AllocFailed<T>> for YarnLockError {
    ghost use Rattle.yarn_lock_parser.specs.declared.error.YarnLockError.TheVariants.{NoMemory};

    ghost from_gives = { λ _ e. e ≡ NoMemory };

    fn from(_: AllocFailed<T>) -> Self {
        YarnLockError::NoMemory
    }
}
