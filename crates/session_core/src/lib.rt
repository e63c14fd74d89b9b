//! Sessions: outcomes of requests that are kept while the tree is edited, and stay right.
#![tactic(auto)]

mod index;
mod keys;
mod latest;
pub mod laws;
mod session;

pub use keys::Keys;
pub use session::Session;
