//! Audit documents, and the lines of an audit.
#![tactic(auto)]

mod document;
mod lines;
mod report;

pub use document::{AuditDocument, read_audit_document};
pub use report::audit_report_for;
