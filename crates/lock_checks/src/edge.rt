// A binding, as it is checked.
use pnp_core::{Manifest, PackageLocator};

/// A binding: the name that a package asks for, and the package that it is bound to.
#[derive(Clone, Copy)]
pub struct Edge<'m> {
    /// The manifest that binds the name.
    pub manifest: &'m Manifest,
    /// The package that asks.
    pub owner: &'m PackageLocator,
    /// The name that it asks for.
    pub name: &'m str,
    /// The package that the name is bound to.
    pub bound: &'m PackageLocator,
}
