//! Yarn's Plug'n'Play manifests: which file holds one, what it says, which package owns a path, and what a name is
//! bound to.
#![tactic(auto)]

mod bare_identifier;
mod binding;
mod copies;
mod entries;
mod error;
mod finding;
mod host;
mod initialize;
pub mod laws;
mod loading;
mod manifest;
mod missing_peer;
mod nearest;
mod normalize;
mod owner;
mod payload;
mod readers;
mod registry;
mod trie;
mod trie_nodes;
mod undeclared;
mod unqualified;
mod virtual_path;

pub use bare_identifier::{parse_bare_identifier, split_bare_identifier};
pub use binding::{binding_of, binding_of_name};
pub use error::{
    BadSpecifier, Error, FailedManifestHydration, HydrationCause, MissingDependency,
    MissingPeerDependency, ReadManifestError, UndeclaredDependency,
};
pub use finding::find_pnp_manifest;
pub use host::{ResolutionConfig, ResolutionHost, resolve_to_unqualified};
pub use initialize::init_pnp_manifest;
pub use loading::{load_pnp_manifest, loaded_manifest, manifest_of_bytes};
pub use manifest::{
    Binding, Manifest, PackageDependency, PackageInformation, PackageLocator, RegexDef,
};
pub use missing_peer::{find_broken_peer_dependencies, missing_peer_of};
pub use nearest::{closest_manifest, find_closest_pnp_manifest_path};
pub use normalize::normalize_path;
pub use owner::{find_locator, owner_of};
pub use payload::payload_of;
pub use readers::read_manifest;
pub use registry::{
    get_package, has_package, is_dependency_tree_root, is_excluded_from_fallback, package_place,
};
pub use trie::Trie;
pub use undeclared::undeclared_of;
pub use unqualified::{Resolution, resolve_to_unqualified_via_manifest};
pub use virtual_path::{VPath, VPathInfo, VirtualInfo, ZipInfo, physical_place};
