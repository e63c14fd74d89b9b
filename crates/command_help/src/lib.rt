//! What the program says of its own words: help for each command, and what is wrong with words that are no command.
#![tactic(auto)]

mod help;
mod topic;
mod wrong;

pub use topic::{Topic, topic_of};
pub use wrong::{WrongWords, wrong_words};
