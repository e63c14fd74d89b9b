//! Resolvers as values that can be put together: the trait of what resolves a specifier over a tree, and resolvers
//! over resolvers.
#![tactic(auto)]

mod cache;
pub mod laws;
mod lookups;
mod mapping;
mod node;
mod pattern;
mod places;
mod refusal;
mod requests;
mod resolve;
mod texts;
mod through;
mod tries;

pub use cache::{CachedRequest, CachingResolver, DEFAULT_CAP};
pub use mapping::{Mapping, TsConfigResolver};
pub use pattern::{Pattern, TsError, Wildcard};
pub use refusal::TsRefusal;
pub use resolve::Resolve;
