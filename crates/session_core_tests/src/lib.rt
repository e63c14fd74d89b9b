//! The tests of `session_core`.
#![tactic(auto)]

#[cfg(test)]
mod example;
#[cfg(test)]
mod kept;
#[cfg(test)]
mod project;
#[cfg(test)]
mod random_steps;
