// Why a binding is refused.
use sugar_path::Text;
use thiserror::Error;

/// Why a binding is refused, in the order of the checks.
#[derive(Debug, Drop, PartialEq, Eq, Error)]
pub enum EdgeFault {
    /// The manifest has no row for the bound package.
    #[error("the manifest has no row for the package")]
    NotInRegistry,
    /// The lock has no entry for the bound package.
    #[error("the lock has no entry for the package")]
    NotLocked,
    /// The package.json of the package that asks can't be read.
    #[error("{path} is malformed")]
    MalformedPackage {
        /// The clean path of the package.json.
        path: Text,
    },
    /// The locked version isn't within the range that the package that asks declares.
    #[error("the version {version} isn't within {range}")]
    OutOfRange {
        /// The range as the package.json says it.
        range: Text,
        /// The version of the lock's entry.
        version: Text,
    },
}
