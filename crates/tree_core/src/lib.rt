//! A tree of files that answers questions, and a recorder of the questions.
#![tactic(auto)]

mod asker;
mod builtins;
mod failing;
pub mod laws;
mod memory;
mod question;
mod recorder;
mod resolve_error;
mod trail;
mod tree;

pub use asker::Asker;
pub use builtins::{NODE_BUILTINS, is_node_builtin};
pub use failing::FailingTree;
pub use memory::{MemoryTree, PutError};
pub use question::{Question, Reply};
pub use recorder::Recorder;
pub use resolve_error::ResolveError;
pub use trail::Trail;
pub use tree::{ReadError, Tree, TreeFile};
