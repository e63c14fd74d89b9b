//! The tests of `disk_tree`.
#![tactic(auto)]

#[cfg(test)]
mod files;
