//! Whether a lock allows what a manifest binds: the entry that names a package, and the range that the asking package
//! declares.
#![tactic(auto)]

mod binding;
mod edge;
mod fault;
pub mod laws;
mod lock;
mod naming;
mod places;
mod range;
mod reference;

pub use binding::{check_binding, checked_location};
pub use edge::Edge;
pub use fault::EdgeFault;
pub use lock::Lock;
pub use naming::names_locator;
