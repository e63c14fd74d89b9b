// The package name and the subpath of a bare specifier.
ghost use Rattle.std.specs.Prelude.{◌≡◌, Some, IfOk, IfErr};
ghost use Rattle.pnp_core.specs.BareIdentifier.{behind_scope, split_bare, split_unscoped, IsSplitRefusal};
ghost use Rattle.pnp_core.specs.Wording.{bad_specifier};

use crate::{BadSpecifier, Error};
use std::alloc::{AllocError, Global};
use sugar_path::Text;

/// The package name of a bare specifier, and its subpath, which is all that follows the name's `/`.
/// `BadSpecifier` comes for a scope alone, as `@scope`. No other error comes but want of memory.
pub fn parse_bare_identifier(alloc: Global, specifier: &str) -> Result<(Text, Option<Text>), Error>
    ensures split { IfOk result (λ split. split_bare specifier.now ≡ Some split) }
    ensures refused { IfErr result (IsSplitRefusal specifier.now) }
{
    match split_bare_identifier(alloc, specifier)? {
        Some(split) => Ok(split),
        None => Err(Error::BadSpecifier(refused_specifier(alloc, specifier)?)),
    }
}

/// The package name of a bare specifier, and its subpath; None for a scope alone.
pub fn split_bare_identifier(
    alloc: Global,
    specifier: &str,
) -> Result<Option<(Text, Option<Text>)>, AllocError>
    ensures { IfOk result (λ split. split ≡ split_bare specifier.now) }
{
    if !specifier.starts_with('@') {
        return Ok(Some(unscoped(alloc, specifier)?));
    }
    match specifier.split_once('/') {
        Some((scope, rest)) => Ok(Some(scoped(alloc, scope, rest)?)),
        None => Ok(None),
    }
}

// A name that ends before the first `/`.
fn unscoped(alloc: Global, text: &str) -> Result<(Text, Option<Text>), AllocError>
    ensures { IfOk result (λ split. split ≡ split_unscoped text.now) }
{
    match text.split_once('/') {
        None => Ok((Text::of(alloc, text)?, None)),
        Some((name, subpath)) => Ok((Text::of(alloc, name)?, Some(Text::of(alloc, subpath)?))),
    }
}

// A scope, and the name in it.
fn scoped(alloc: Global, scope: &str, rest: &str) -> Result<(Text, Option<Text>), AllocError>
    ensures { IfOk result (λ split. split ≡ behind_scope scope.now (split_unscoped rest.now)) }
{
    let (name, subpath) = unscoped(alloc, rest)?;
    let mut full = String::from_str(alloc, scope)?;
    full.push_str("/")?;
    full.push_str(name.as_str())?;
    Ok((Text::from(full), subpath))
}

#[tactic(auto, unfolding(crate::specs::Wording::bad_specifier))]
fn refused_specifier(alloc: Global, specifier: &str) -> Result<BadSpecifier, AllocError>
    ensures { IfOk result (λ refused. refused ≡ bad_specifier specifier.now) }
{
    Ok(BadSpecifier {
        message: Text::of(alloc, "Invalid specifier")?,
        specifier: Text::of(alloc, specifier)?,
    })
}
