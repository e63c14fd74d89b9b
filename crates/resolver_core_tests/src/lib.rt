//! The tests of `resolver_core`.
#![tactic(auto)]

#[cfg(test)]
mod caching;
#[cfg(test)]
mod mappings;
#[cfg(test)]
mod table;
#[cfg(test)]
mod versions;
