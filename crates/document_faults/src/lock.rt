// Whether a document's lock is a lock file.
use crate::fault::Fault;
use crate::placed::Placed;
use yarn_lock_parser::{LockCause, YarnLockError, parse_str};

pub(crate) fn check_lock(lock: &Placed<'_>) -> Result<(), Fault> {
    let Some(text) = lock.value.as_str() else {
        return Ok(());
    };
    match parse_str(lock.alloc, text) {
        Ok(_) => Ok(()),
        Err(YarnLockError::NoMemory) => Err(Fault::NoMemory),
        Err(YarnLockError::Parser { place, cause }) => {
            let line = line_at(text.as_bytes(), place);
            let what = wanted(cause);
            Err(Fault::told(format!(in lock.alloc; "lock, line {line}: {what}")?))
        }
    }
}

// The number of the line in which a place lies, from 1.
fn line_at(text: &[u8], place: usize) -> usize {
    let ends = text.iter().take(place).filter(|c| **c == b'\n').count();
    ends.saturating_add(1)
}

// What should stand where the lock is wrong.
fn wanted(cause: LockCause) -> &'static str {
    match cause {
        LockCause::Header => "a lock file begins with two whole lines of comments",
        LockCause::Metadata => {
            "\"# yarn lockfile v1\" should stand in the second line, or here \"__metadata:\" and its version"
        }
        LockCause::LastLine =>
            "the last line of this entry has no end, and should not end in a blank",
        LockCause::Descriptors => "an entry should begin here, as name@range and a colon",
        LockCause::NoItem =>
            "behind the first line of this entry its items should stand, as its version",
        LockCause::Optional => "\"optional\" should be true or false in this entry",
        LockCause::NoVersion => "this entry should have a version",
    }
}
