//! The tests of `resolve_stack`.
#![tactic(auto)]

#[cfg(test)]
mod example;
#[cfg(test)]
mod kept;
#[cfg(test)]
mod mappings;
#[cfg(test)]
mod project;
#[cfg(test)]
mod projects;
#[cfg(test)]
mod replays;
#[cfg(test)]
mod trail;
