// How a request ends: an answer or a refusal, with the trail that decides it.
use pnp_core::{HydrationCause, MissingPeerDependency, UndeclaredDependency};
use resolver_core::TsRefusal;
use sugar_path::Text;
use swc_loader::Resolution;
use thiserror::Error;
use tree_core::Trail;

/// Why the order of the join ends without an answer.
#[derive(Debug, Drop, PartialEq, Eq, Error)]
pub enum JoinRefusal {
    /// The target names no package.
    #[error("{specifier} names no package")]
    BadSpecifier {
        /// The target.
        specifier: Text,
    },
    /// The nearest manifest can't be read.
    #[error("the manifest {manifest} can't be read")]
    FailedManifestHydration {
        cause: HydrationCause,
        /// The path of the manifest's file.
        manifest: Text,
    },
    /// The asking package doesn't declare the package that was asked for.
    #[error("{0}")]
    UndeclaredDependency(UndeclaredDependency),
    /// The asking package has it as a peer, and nobody provides it.
    #[error("{0}")]
    MissingPeerDependency(MissingPeerDependency),
    /// The manifest has no row for the package that the name is bound to.
    #[error("the manifest has no row for {name}@{reference}")]
    NotInRegistry {
        name: Text,
        reference: Text,
    },
    /// The lock has no entry for the package that the name is bound to.
    #[error("the lock has no entry for {name}@{reference}")]
    NotLocked {
        name: Text,
        reference: Text,
    },
    /// A package.json that is needed, of the package that asks, or of one that is searched or whose exports count,
    /// isn't one.
    #[error("{path} is malformed")]
    MalformedPackage {
        /// The clean path of the package.json.
        path: Text,
    },
    /// The version that the lock holds isn't within the range that the asking package declares.
    #[error("the locked version {version} isn't within {range}")]
    OutOfRange {
        /// The range as the package.json of the asking package says it.
        range: Text,
        /// The version of the lock's entry.
        version: Text,
    },
    /// The bound package lies inside an archive.
    #[error("{location} lies inside an archive")]
    Archive {
        /// The location as the package's row says it.
        location: Text,
    },
    /// The bound package exports no file under the key, by the project's conditions.
    #[error("{location} doesn't export {key}")]
    NotExported {
        /// The clean path of the location.
        location: Text,
        /// `.` for the package itself, else `./` and the subpath.
        key: Text,
    },
    /// The file that was found isn't below the location of the bound package.
    #[error("the file {file} isn't below {location}")]
    Outside {
        /// The file's clean path.
        file: Text,
        /// The clean path of the location.
        location: Text,
    },
    /// The search found no file.
    #[error("nothing is found at {text}")]
    NotFound {
        /// The text that was searched: the target, or the text behind a package's location that the subpath or the
        /// package's exports give, and for the whole package that location's clean path.
        text: Text,
    },
    /// What asks is no path, and the specifier needs one.
    #[error("the base is no file")]
    BaseNotAFile,
}

/// Why the order of search ends without an answer.
pub type Refusal = TsRefusal<JoinRefusal>;

/// How a request ends.
#[derive(Debug, Drop, PartialEq, Eq)]
pub enum Verdict {
    Answered(Resolution),
    Refused(Refusal),
}

/// A verdict, and the questions with their replies that decide it.
#[derive(Debug, Drop)]
pub struct Outcome {
    pub verdict: Verdict,
    pub trail: Trail,
}
