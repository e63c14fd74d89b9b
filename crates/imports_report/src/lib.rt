//! The lines of what a source text imports.
#![tactic(auto)]

mod cause;
mod lines;
mod report;

pub use cause::{SourceCause, SourceError, line_of_source_cause};
pub use report::imports_report_for;
