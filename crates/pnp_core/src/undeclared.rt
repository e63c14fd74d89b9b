// What is told of a name that its owner doesn't declare.
ghost use Rattle.std.specs.Prelude.{◌≡◌, IfOk, ◌++◌, codes, string_bytes};
ghost use Rattle.pnp_core.specs.Wording.{undeclared, undeclared_message, ambiguous, ambiguous_builtin, required, via};

use crate::registry::is_dependency_tree_root;
use crate::{Manifest, PackageLocator, UndeclaredDependency};
use std::alloc::{AllocError, Global};
use sugar_path::Text;
use tree_core::is_node_builtin;

/// What is told of a name that its owner doesn't declare, asked by a specifier from a file.
pub fn undeclared_of(
    alloc: Global,
    manifest: &Manifest,
    owner: &PackageLocator,
    specifier: &str,
    name: &str,
    issuer_path: &str,
) -> Result<UndeclaredDependency, AllocError>
    ensures { IfOk result (λ told.
        told ≡ undeclared manifest.now owner.now specifier.now name.now issuer_path.now) }
{
    let is_root = is_dependency_tree_root(manifest, owner);
    let is_builtin = is_node_builtin(specifier);
    let message = undeclared_message(
        alloc,
        is_builtin,
        is_root,
        owner,
        specifier,
        name,
        issuer_path,
    )?;
    Ok(UndeclaredDependency {
        message: Text::from(message),
        request: Text::of(alloc, specifier)?,
        dependency_name: Text::of(alloc, name)?,
        issuer_locator: owner.try_clone(alloc)?,
        issuer_path: Text::of(alloc, issuer_path)?,
    })
}

// The message: of a builtin's name or not, asked by a root of the dependency tree or not.
#[tactic(auto, unfolding(crate::specs::Wording::undeclared_message))]
fn undeclared_message(
    alloc: Global,
    is_builtin: bool,
    is_root: bool,
    owner: &PackageLocator,
    specifier: &str,
    name: &str,
    issuer_path: &str,
) -> Result<String, AllocError>
    ensures { IfOk result (λ s. string_bytes s
        ≡ undeclared_message is_builtin is_root owner.now specifier.now name.now issuer_path.now) }
{
    let required = required(alloc, name, specifier)?;
    let issuer = owner.name.as_str();
    if is_builtin {
        if is_root {
            let reason = ambiguous_builtin(alloc, "Your application", name, "your")?;
            let text = format!(in alloc; "{reason}{required}{issuer_path}")?;
            return Ok(text);
        }
        let reason = ambiguous_builtin_of(alloc, issuer, name)?;
        let text = format!(in alloc; "{reason}{required}{issuer_path}")?;
        return Ok(text);
    }
    if is_root {
        let reason = ambiguous(alloc, "Your application", name, "your")?;
        let text = format!(in alloc; "{reason}{required}{issuer_path}")?;
        return Ok(text);
    }
    let reason = ambiguous(alloc, issuer, name, "its")?;
    let reference = owner.reference.as_str();
    let text = format!(in alloc; "{reason}{required}{issuer}@{reference} (via {issuer_path})")?;
    Ok(text)
}

// A builtin's name that isn't declared, asked by a package.
fn ambiguous_builtin_of(alloc: Global, issuer: &str, name: &str) -> Result<String, AllocError>
    ensures { IfOk result (λ s.
        string_bytes s ≡ ambiguous_builtin issuer.now name.now (issuer.now ++ codes "'s")) }
{
    let whose = format!(in alloc; "{issuer}'s")?;
    ambiguous_builtin(alloc, issuer, name, whose.as_str())
}

#[tactic(auto, unfolding(crate::specs::Wording::ambiguous_builtin))]
fn ambiguous_builtin(
    alloc: Global,
    who: &str,
    name: &str,
    whose: &str,
) -> Result<String, AllocError>
    ensures { IfOk result (λ s. string_bytes s ≡ ambiguous_builtin who.now name.now whose.now) }
{
    let text = format!(in alloc;
        "{who} tried to access {name}. While this module is usually interpreted as a Node builtin, your resolver is running inside a non-Node resolution context where such builtins are ignored. Since {name} isn't otherwise declared in {whose} dependencies, this makes the require call ambiguous and unsound."
    )?;
    Ok(text)
}

#[tactic(auto, unfolding(crate::specs::Wording::ambiguous))]
fn ambiguous(alloc: Global, who: &str, name: &str, whose: &str) -> Result<String, AllocError>
    ensures { IfOk result (λ s. string_bytes s ≡ ambiguous who.now name.now whose.now) }
{
    let text = format!(in alloc;
        "{who} tried to access {name}, but it isn't declared in {whose} dependencies; this makes the require call ambiguous and unsound."
    )?;
    Ok(text)
}

// The lines that name what is asked for, and by whom.
#[tactic(auto, unfolding(crate::specs::Wording::required))]
pub(crate) fn required(alloc: Global, name: &str, specifier: &str) -> Result<String, AllocError>
    ensures { IfOk result (λ s. string_bytes s ≡ required name.now specifier.now) }
{
    let via = via(alloc, name, specifier)?;
    let text = format!(in alloc; "\n\nRequired package: {name}{via}\nRequired by: ")?;
    Ok(text)
}

// The specifier, where it says more than the name.
#[tactic(auto, unfolding(crate::specs::Wording::via))]
fn via(alloc: Global, name: &str, specifier: &str) -> Result<String, AllocError>
    ensures { IfOk result (λ s. string_bytes s ≡ via name.now specifier.now) }
{
    if name == specifier {
        return Ok(String::new(alloc));
    }
    let text = format!(in alloc; " (via \"{specifier}\")")?;
    Ok(text)
}
