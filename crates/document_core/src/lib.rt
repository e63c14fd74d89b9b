//! A document: the files, settings and requests that JSON gives, or the first cause against it.
#![tactic(auto)]

mod cause;
mod cause_line;
mod document;
mod fields;
mod given;
mod json_text;
mod mapping;
mod outcome;

pub use cause::{Cause, DocumentError, Field};
pub use cause_line::line_of_cause;
pub use document::{project_in, read_document, tree_of};
pub use fields::{
    Document, GivenProject, GivenSettings, read_project, read_settings, required_field,
};
pub use given::{GivenFile, GivenRequest};
pub use json_text::read_json;
pub use outcome::outcome_of;
