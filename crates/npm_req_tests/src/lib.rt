//! The tests of `npm_req`.
#![tactic(auto)]

#[cfg(test)]
mod example;
#[cfg(test)]
mod ranges;
#[cfg(test)]
mod vectors;
