// Why a mapping's order ends without an answer.
use sugar_path::{List, Text};
use thiserror::Error;

/// Why the order of a mapping over an inner resolver ends without an answer.
#[derive(Debug, Drop, PartialEq, Eq, Error)]
pub enum TsRefusal<X> {
    /// No pattern stands for the specifier, and the last inner request was refused.
    #[error("the inner resolver refuses")]
    Inner(X),
    /// A pattern stands for the specifier, and each of its targets failed.
    #[error("no target of {pattern} is found")]
    TsFault {
        pattern: Text,
        /// For each target the refusal of its last inner request.
        inner: List<X>,
    },
}
