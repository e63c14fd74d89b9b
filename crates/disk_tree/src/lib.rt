//! The real disk as a tree of files.
#![tactic(auto)]

mod disk_tree;
mod entry;
mod fault;

pub use crate::disk_tree::DiskTree;
pub use crate::fault::{DiskFault, FaultReason, LARGEST_FILE};
