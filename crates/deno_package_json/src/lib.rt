//! package.json files: their fields, their requirements, and loads over any reader of files with a cache.
#![tactic(auto)]

mod cache;
mod dep_value;
mod entry;
mod error;
mod exported;
mod exports;
mod fields;
mod fs;
mod kind;
pub mod laws;
mod load;
mod load_path;
mod location;
mod package_json;
mod rc;
mod requirement;
mod tables;
mod to_value;

pub use cache::{BTreeMapCache, PackageJsonCache};
pub use dep_value::{PackageJsonDepValue, PackageJsonDepValueParseError, PackageJsonDeps};
pub use error::PackageJsonLoadError;
pub use fs::{DenoPkgJsonFs, MapFs, RealDenoPkgJsonFs};
pub use kind::NodeModuleKind;
pub use package_json::PackageJson;
pub use rc::{PackageJsonRc, new_rc};
