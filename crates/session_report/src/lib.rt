//! Session documents: the steps of a session, and the line of each.
#![tactic(auto)]

mod document;
mod lines;
mod report;
mod step;

pub use document::{LARGEST, SessionDocument, capacity_in, read_session_document};
pub use lines::{line_of_put, line_of_removal, line_of_value};
pub use report::session_report_for;
pub use step::Step;
