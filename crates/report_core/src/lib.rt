//! Verdicts and trails as lines of JSON.
#![tactic(auto)]

mod lines;
mod put_verdicts;
mod puts;
mod trails;
mod verdicts;

pub use lines::{line_of_outcome, line_of_verdict, line_with_trail};
pub use put_verdicts::put_verdict;
pub use puts::{put_comma, put_member, put_text};
pub use verdicts::{name_of_cause, value_of_locator, value_of_malformed, value_of_out_of_range};
