//! The tests of `tree_core`.
#![tactic(auto)]

#[cfg(test)]
mod example;
#[cfg(test)]
mod trails;
#[cfg(test)]
mod trees;
