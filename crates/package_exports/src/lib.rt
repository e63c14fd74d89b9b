//! Which file of a package a subpath means by the field `exports` of its package.json.
#![tactic(auto)]

mod exports;
pub mod laws;

pub use exports::exported;
