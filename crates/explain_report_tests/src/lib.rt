//! The tests of `explain_report`.
#![tactic(auto)]

#[cfg(test)]
mod outcomes;
#[cfg(test)]
mod refusals;
