//! Versions and version ranges as npm reads them: which texts are versions, which are ranges or tags, and which version
//! meets a range.
#![tactic(auto)]

mod comparator;
mod error;
mod front;
pub mod laws;
mod meets;
mod message;
mod package_req;
mod part;
mod partial;
mod range;
mod requirement;
mod version;
mod word;

pub use error::{NpmVersionParseError, NpmVersionReqParseError, PackageReqParseError};
pub use package_req::{PackageReq, name_and_range};
pub use requirement::VersionReq;
pub use version::Version;
