//! The tests of `json_reading`.
#![tactic(auto)]

#[cfg(test)]
mod example;
#[cfg(test)]
mod texts;
#[cfg(test)]
mod values;
