// What an audit tells.
use lock_checks::EdgeFault;
use pnp_core::PackageLocator;
use sugar_path::{List, Text};

/// A binding of a manifest's rows that is refused, and why.
#[derive(Debug, Drop, PartialEq, Eq)]
pub struct Finding {
    /// The package whose row binds the name.
    pub owner: PackageLocator,
    /// The name that it asks for.
    pub name: Text,
    /// The package that the name is bound to.
    pub bound: PackageLocator,
    /// The first check that refuses the binding.
    pub fault: EdgeFault,
}

/// An entry of a lock that names no package of the manifest.
#[derive(Debug, Drop, PartialEq, Eq)]
pub struct Unused {
    /// The entry's name.
    pub name: Text,
    /// Where its package comes from, as the entry says it.
    pub resolved: Text,
}

/// What a lock says of all that a manifest binds.
#[derive(Debug, Drop)]
pub struct Audit {
    /// The bindings that are refused, row by row in the registry's order, and within a row in the order of its
    /// bindings.
    pub findings: List<Finding>,
    /// The entries that name no package of the registry, in the lock's order.
    pub unused: List<Unused>,
    /// How many bindings there are, up to the greatest number. A null binds nothing.
    pub edges: u64,
}
