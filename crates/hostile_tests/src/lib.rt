//! What comes in damaged, deep or huge: each call answers, with the cause.
#![tactic(auto)]

#[cfg(test)]
mod cut;
#[cfg(test)]
mod disk;
#[cfg(test)]
mod faults;
#[cfg(test)]
mod huge;
#[cfg(test)]
mod names;
#[cfg(test)]
mod requests;
#[cfg(test)]
mod streams;
