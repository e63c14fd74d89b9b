//! The questions and replies of a trail, and requests, as values of JSON.
#![tactic(auto)]

mod reading;
mod requests;
mod steps;

pub use reading::{bytes_of_hex, read_importer};
pub use requests::value_of_request;
pub use steps::{value_of_question, value_of_step};
