// Why the disk refused a question.
use std::{fmt, io};
use sugar_path::Text;

/// The most bytes of a file that are read.
pub const LARGEST_FILE: u64 = 268_435_456;

/// A question that the disk refused: its path, and why. It is told in one line, without a line end.
#[derive(Debug, Drop)]
pub struct DiskFault {
    /// The path, where memory was found for it.
    pub path: Option<Text>,
    pub reason: FaultReason,
}

/// Why the disk refused a question.
#[derive(Debug, Drop)]
pub enum FaultReason {
    /// What the system says.
    System(io::Error),
    /// The file has more than `LARGEST_FILE` bytes.
    TooLarge,
}

impl fmt::Display for DiskFault {
    fn fmt<W: fmt::Write>(&self, f: &mut fmt::Formatter<W>) -> fmt::Result {
        match &self.path {
            Some(path) => write!(f, "{}: {}", path.as_str(), self.reason),
            None => write!(f, "{}", self.reason),
        }
    }
}

impl fmt::Display for FaultReason {
    fn fmt<W: fmt::Write>(&self, f: &mut fmt::Formatter<W>) -> fmt::Result {
        match self {
            FaultReason::System(e) => write!(f, "{e}"),
            FaultReason::TooLarge => f.write_str("the file has more than 268,435,456 bytes"),
        }
    }
}
