//! The tests of `star_texts`.
#![tactic(auto)]

#[cfg(test)]
mod exports;
