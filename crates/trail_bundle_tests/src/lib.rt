//! The tests of `trail_bundle`.
#![tactic(auto)]

#[cfg(test)]
mod adding;
#[cfg(test)]
mod random;
#[cfg(test)]
mod replaying;
#[cfg(test)]
mod texts;
