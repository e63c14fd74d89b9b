//! A project that is generated in any size, to measure with, and the counts of its outcomes.
#![tactic(auto)]

mod counts;
mod manifest;
mod requests;
mod tree;

pub use counts::{Counts, line_of_size};
pub use manifest::manifest_text;
pub use requests::generated_requests;
pub use tree::generated_tree;
