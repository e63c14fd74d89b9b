//! The text for people on one outcome: each question with what was there, by the step of the search that put it, and
//! how the request ended.
#![tactic(auto)]

mod joined;
mod refusals;
mod steps;
mod text;

pub use text::explained;
