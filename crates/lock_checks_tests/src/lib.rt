//! The tests of `lock_checks`.
#![tactic(auto)]

#[cfg(test)]
mod bindings;
#[cfg(test)]
mod fixtures;
#[cfg(test)]
mod names;
