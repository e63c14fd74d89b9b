//! Yarn's lock files: which entries a text holds, and what each says.
#![tactic(auto)]

mod byte_set;
mod cut;
mod dependencies;
mod descriptors;
mod entry;
mod equality;
mod error;
mod fields;
mod front;
mod header;
mod item;
mod items;
pub mod laws;
mod lists;
mod lockfile;
mod metadata;
mod metas;
mod pair;

pub use entry::Entry;
pub use error::{LockCause, YarnLockError};
pub use header::Generator;
pub use lockfile::{Lockfile, parse_str};
pub use metas::{DepMeta, Metas, MetasIter};
pub use pair::{Pairs, PairsIter};
