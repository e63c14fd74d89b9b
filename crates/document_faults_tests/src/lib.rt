//! The tests of `document_faults`.
#![tactic(auto)]

#[cfg(test)]
mod agreement;
#[cfg(test)]
mod told;
