// Why a search for Node's modules ends without an answer.
use sugar_path::Text;
use thiserror::Error;

/// Why the order of search for Node's modules ends without an answer.
#[derive(Debug, Drop, PartialEq, Eq, Error)]
pub enum NodeRefusal {
    /// The search found no file.
    #[error("nothing is found for {text}")]
    NotFound {
        /// What was searched: the target, or at a package's location the text behind it.
        text: Text,
    },
    /// The base is no path.
    #[error("the base is no file")]
    BaseNotAFile,
    /// A package.json that the search reads isn't one.
    #[error("{path} is malformed")]
    MalformedPackage {
        /// The clean path of the package.json.
        path: Text,
    },
}
