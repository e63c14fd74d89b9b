//! Documents that give bundles, and documents that replay them: the text of a bundle, and the lines of its requests.
#![tactic(auto)]

mod bundling;
mod document;
mod replaying;

pub use bundling::bundle_report_for;
pub use document::{ReplayDocument, read_replay_document};
pub use replaying::replay_report_for;
