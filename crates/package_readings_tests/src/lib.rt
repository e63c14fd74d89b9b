//! The tests of `package_readings`.
#![tactic(auto)]

#[cfg(test)]
mod contents;
