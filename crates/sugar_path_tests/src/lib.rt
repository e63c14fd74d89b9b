//! The tests of `sugar_path`.
#![tactic(auto)]

#[cfg(test)]
mod example;
#[cfg(test)]
mod lexical;
#[cfg(test)]
mod parts;
