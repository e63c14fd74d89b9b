//! The tests of `es_pattern`.
#![tactic(auto)]

#[cfg(test)]
mod patterns;
