//! What people are told of a document that is refused: where it is wrong, and what should stand there.
#![tactic(auto)]

mod document;
mod fault;
mod format;
mod given;
mod json_text;
mod lock;
mod nearest;
mod placed;
mod project;
mod refusal;
mod settings;
mod tree;
mod unknown;

pub use format::Format;
pub use refusal::told_of;
