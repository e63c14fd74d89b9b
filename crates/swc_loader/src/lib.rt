//! The search for Node's modules: file candidates, folders with their entries, the walk through `node_modules`, and the
//! rules for browsers.
#![tactic(auto)]

mod before;
mod browser_rules;
mod candidates;
mod content_key;
mod conventions;
mod entry;
mod importer;
pub mod laws;
mod located;
mod readings;
mod refusal;
mod resolution;
mod resolver;
mod search;
mod shape;
mod specifier;
mod spelling;
mod target;
mod ts_version;
mod walk;

pub use before::Before;
pub use browser_rules::{ModuleRule, Rule, Source};
pub use content_key::ContentKey;
pub use conventions::Conventions;
pub use entry::{PackageEntry, entry_of};
pub use importer::Importer;
pub use located::{Placed, text_behind};
pub use readings::{Readings, make_room};
pub use refusal::NodeRefusal;
pub use resolution::{FileName, Found, Resolution, Via};
pub use resolver::{NodeModulesResolver, to_absolute_path};
pub use search::{SearchContext, Searched, folder, place};
pub use shape::is_closed;
pub use specifier::is_bare;
pub use target::TargetEnv;
pub use tree_core::{NODE_BUILTINS, ResolveError};
pub use ts_version::TsVersion;
