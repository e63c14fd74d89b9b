//! The tests of `yarn_lock_parser`.
#![tactic(auto)]

#[cfg(test)]
mod example;
#[cfg(test)]
mod fixtures;
#[cfg(test)]
mod locks;
