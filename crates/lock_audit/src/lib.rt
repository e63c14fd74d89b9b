//! What a lock says of all that a manifest binds: the bindings that are refused, and the entries that no package needs.
#![tactic(auto)]

mod audited;
mod auditing;
mod edges;
mod entries;
mod error;
mod findings;
pub mod laws;
mod names;

pub use audited::{Audit, Finding, Unused};
pub use auditing::audit;
pub use error::AuditError;
