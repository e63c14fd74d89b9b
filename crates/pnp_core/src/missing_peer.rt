// What is told of a peer that nobody provides.
ghost use Rattle.std.specs.Prelude.{◌≡◌, [], IfOk, string_bytes};
ghost use Rattle.pnp_core.specs.Wording.{missing_peer, missing_peer_message};

use crate::registry::is_dependency_tree_root;
use crate::undeclared::required;
use crate::{Manifest, MissingPeerDependency, PackageLocator};
use std::alloc::{AllocError, Global};
use sugar_path::{List, Text};

/// What is told of a name that its owner binds to null, asked by a specifier from a file.
pub fn missing_peer_of(
    alloc: Global,
    manifest: &Manifest,
    owner: &PackageLocator,
    specifier: &str,
    name: &str,
    issuer_path: &str,
) -> Result<MissingPeerDependency, AllocError>
    ensures { IfOk result (λ told.
        told ≡ missing_peer manifest.now owner.now specifier.now name.now issuer_path.now) }
{
    let is_root = is_dependency_tree_root(manifest, owner);
    let message = missing_peer_message(alloc, is_root, owner, specifier, name, issuer_path)?;
    Ok(MissingPeerDependency {
        message: Text::from(message),
        request: Text::of(alloc, specifier)?,
        dependency_name: Text::of(alloc, name)?,
        issuer_locator: owner.try_clone(alloc)?,
        issuer_path: Text::of(alloc, issuer_path)?,
        broken_ancestors: find_broken_peer_dependencies(alloc, specifier, owner),
    })
}

/// The ancestors that fail to provide a peer. None are looked for, so the list is empty, and it takes no memory.
pub fn find_broken_peer_dependencies(
    alloc: Global,
    _dependency: &str,
    _initial_package: &PackageLocator,
) -> List<PackageLocator>
    ensures { result ≡ [] }
{
    List::new(alloc)
}

// The message: asked by a root of the dependency tree or not.
#[tactic(auto, unfolding(crate::specs::Wording::missing_peer_message))]
fn missing_peer_message(
    alloc: Global,
    is_root: bool,
    owner: &PackageLocator,
    specifier: &str,
    name: &str,
    issuer_path: &str,
) -> Result<String, AllocError>
    ensures { IfOk result (λ s. string_bytes s
        ≡ missing_peer_message is_root owner.now specifier.now name.now issuer_path.now) }
{
    let required = required(alloc, name, specifier)?;
    if is_root {
        let text = format!(in alloc;
            "Your application tried to access {name} (a peer dependency); this isn't allowed as there is no ancestor to satisfy the requirement. Use a devDependency if needed.{required}{issuer_path}"
        )?;
        return Ok(text);
    }
    let issuer = owner.name.as_str();
    let reference = owner.reference.as_str();
    let text = format!(in alloc;
        "{issuer} tried to access {name} (a peer dependency) but it isn't provided by its ancestors; this makes the require call ambiguous and unsound.{required}{issuer}@{reference} (via {issuer_path})"
    )?;
    Ok(text)
}
