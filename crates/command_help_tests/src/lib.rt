//! The tests of `command_help`.
#![tactic(auto)]

#[cfg(test)]
mod words;
