//! The file that a specifier means, asked from an importer, with the trail that decides it.
#![tactic(auto)]

mod copies;
mod exports;
mod import;
mod join;
mod join_rows;
mod kept;
mod known_tree;
pub mod laws;
mod pnp_resolver;
mod project;
mod replaying;
mod request;
mod resolver;
mod verdict;

pub use import::{ImportError, resolve_import, resolve_import_with};
pub use kept::KeptReadings;
pub use known_tree::KnownTree;
pub use pnp_resolver::PnpResolver;
pub use project::{Project, ProjectError, Settings, TsSettings};
pub use replay_core::ReplayError;
pub use replaying::replay;
pub use resolver::Resolver;
pub use resolver_core::{Resolve, TsRefusal};
pub use swc_loader::{FileName, Found, Resolution, TargetEnv, TsVersion, Via};
pub use verdict::{JoinRefusal, Outcome, Refusal, Verdict};
