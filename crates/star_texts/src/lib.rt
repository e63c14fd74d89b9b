//! What a `*` stands for in a text, as in the keys and targets of a package's `exports`.
#![tactic(auto)]

pub mod laws;
mod star;

pub use star::{around_only_star, around_star, has_star, replaced, rest_between};
