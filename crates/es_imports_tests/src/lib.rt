//! The tests of `es_imports`.
#![tactic(auto)]

#[cfg(test)]
mod elements;
#[cfg(test)]
mod forms;
#[cfg(test)]
mod goals;
#[cfg(test)]
mod literals;
#[cfg(test)]
mod others;
#[cfg(test)]
mod statements;
#[cfg(test)]
mod told;
