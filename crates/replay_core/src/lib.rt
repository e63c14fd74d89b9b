//! A tree that answers from a trail, and what a search over it comes to.
#![tactic(auto)]

mod replay_tree;
mod replaying;

pub use replay_tree::ReplayTree;
pub use replaying::{ReplayError, replayed};
