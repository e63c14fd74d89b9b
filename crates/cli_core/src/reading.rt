// Reads a source to its end.
ghost use Rattle.std.specs.Prelude.{
  ◌≡◌,
  ◌≤◌,
  ◌<◌,
  ◌+◌,
  ℕ,
  [],
  IfOk,
  OnErr,
  IsErrOf,
  Some,
  Option,
  length,
  drop,
  vec_len,
};
ghost use Rattle.std.specs.Option.{ForSome};
ghost use Rattle.cli_core.specs.Reading.{is_read_fault, LeavesEnd};
ghost use Rattle.cli_core.specs.Streams.{CountsFault};
ghost use Rattle.cli_core.specs.declared.reading.ReadAllError.TheVariants.{Fault, TooLong};
ghost use Rattle.cli_core.specs.declared.reading.TheConstants.{LONGEST, CHUNK};

use crate::source::{Source, SourceFault};
use std::alloc::{AllocError, Global};

/// The most bytes that a document may have.
pub const LONGEST: usize = 67_108_864;

/// How many bytes are asked for at once.
pub const CHUNK: usize = 4096;

/// Why a source wasn't read to its end.
#[derive(Clone, Copy, Debug, PartialEq, Eq)]
pub enum ReadAllError {
    /// The source refused a read.
    Fault,
    /// The source gave more than the longest document has.
    TooLong,
    /// No memory was found.
    NoMemory,
}

impl From<SourceFault> for ReadAllError {
    ghost use Rattle.std.specs.Prelude.{◌≡◌};
    ghost use Rattle.cli_core.specs.declared.reading.ReadAllError.TheVariants.{Fault};

    ghost from_gives = { λ _ e. e ≡ Fault };

    fn from(_: SourceFault) -> Self {
        ReadAllError::Fault
    }
}

impl From<AllocError> for ReadAllError {
    ghost use Rattle.std.specs.Prelude.{◌≡◌};
    ghost use Rattle.cli_core.specs.declared.reading.ReadAllError.TheVariants.{NoMemory};

    ghost from_gives = { λ _ e. e ≡ NoMemory };

    fn from(_: AllocError) -> Self {
        ReadAllError::NoMemory
    }
}

/// All that a source has left. It reads on only while it has taken at most `LONGEST` bytes.
pub fn read_all<S: Source>(alloc: Global, source: &mut S) -> Result<Vec<u8>, ReadAllError>
    ensures all { IfOk result (λ v. ForSome (S.state source.old).left (λ bytes.
        (v.items ≡ bytes) × ((S.state source.new).left ≡ Some []))) }
    ensures short { IfOk result (λ v. vec_len v ≤ LONGEST) }
    ensures too_long { IsErrOf result TooLong → ForSome (S.state source.old).left (λ bytes.
        LONGEST < length bytes) }
    ensures early { IsErrOf result Fault → ForSome (S.state source.old).left (λ bytes.
        LeavesEnd LONGEST bytes (S.state source.new).left) }
    ensures end { ForSome (S.state source.old).left (λ bytes.
        LeavesEnd (LONGEST + CHUNK) bytes (S.state source.new).left) }
    ensures counted { CountsFault (is_read_fault result)
        (S.state source.old).faults (S.state source.new).faults }
{
    let mut all = Vec::new(alloc);
    let mut buffer = [0u8; CHUNK];
    while all.len() <= LONGEST {
        let n = source.read(&mut buffer)?;
        if n == 0 {
            return Ok(all);
        }
        all.extend_from_slice(&buffer[..n])?;
    }
    Err(ReadAllError::TooLong)
}
