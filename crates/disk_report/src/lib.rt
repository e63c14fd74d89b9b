//! Requests over a tree that isn't a document's, such as the real disk: their project by default settings, and what is
//! told of their outcomes.
#![tactic(auto)]

mod disk_request;
mod error;
mod forms;
mod outcomes;

pub use disk_request::{DiskRequest, text_on_tree};
pub use error::DiskError;
pub use forms::{DiskForm, OutcomeForm, told_as};
