// The search at the location of a package.
ghost use Rattle.std.specs.Prelude.{◌≡◌, IfOk, Some, string_bytes};
ghost use Rattle.std.specs.Option.{option_copied};
ghost use Rattle.tree_core.specs.Resolving.{Resolves};
ghost use Rattle.swc_loader.specs.Located.{behind, searched, whole, inside, resolve_at};

use crate::browser_rules::ruled_file;
use crate::search::{folder, place};
use crate::{NodeModulesResolver, NodeRefusal, Readings, Searched};
use std::alloc::{AllocError, Global};
use sugar_path::{CleanPath, Text};
use tree_core::{Asker, ResolveError};

/// What is found at a location.
#[derive(Drop)]
pub enum Placed {
    /// A file. A rule for browsers may have led to it.
    File { path: CleanPath, rewritten: bool },
    /// A file that a rule for browsers ignores, by its clean path.
    Ignored(Text),
}

// What is found at a location: without a subpath in the folder, else at the place behind it.
pub(crate) fn search_at<R: Asker>(
    alloc: Global,
    tree: &mut R,
    readings: &mut Readings,
    resolver: &NodeModulesResolver,
    location: &CleanPath,
    subpath: Option<&str>,
) -> Result<Placed, ResolveError<NodeRefusal>>
    ensures { Resolves (R.asking tree.old) (R.asking tree.new) result
        (resolve_at resolver.now location.now (option_copied subpath.entry)) }
{
    match subpath {
        None => search_whole(alloc, tree, readings, resolver, location),
        Some(subpath) => search_behind(alloc, tree, readings, resolver, location, subpath),
    }
}

// The search of the location itself.
fn search_whole<R: Asker>(
    alloc: Global,
    tree: &mut R,
    readings: &mut Readings,
    resolver: &NodeModulesResolver,
    location: &CleanPath,
) -> Result<Placed, ResolveError<NodeRefusal>>
    ensures { Resolves (R.asking tree.old) (R.asking tree.new) result
        (whole resolver.now location.now) }
{
    let context = resolver.context();
    let found = folder(alloc, tree, readings, &context, location)?;
    placed_file(alloc, tree, readings, resolver, location.as_str(), found)
}

// The search behind a location, which may be that of the location itself.
fn search_behind<R: Asker>(
    alloc: Global,
    tree: &mut R,
    readings: &mut Readings,
    resolver: &NodeModulesResolver,
    location: &CleanPath,
    subpath: &str,
) -> Result<Placed, ResolveError<NodeRefusal>>
    ensures { Resolves (R.asking tree.old) (R.asking tree.new) result
        (resolve_at resolver.now location.now (Some subpath.now)) }
{
    let behind = text_behind(alloc, location, subpath)?;
    let text = behind.as_str();
    let at = CleanPath::read(alloc, &CleanPath::root(alloc), text)?;
    if at == *location {
        return search_whole(alloc, tree, readings, resolver, location);
    }
    let context = resolver.context();
    let found = place(alloc, tree, readings, &context, text, &at)?;
    placed_file(alloc, tree, readings, resolver, text, found)
}

// What a search by a text comes to: a file by the rules for it, or a refusal.
pub(crate) fn placed_file<R: Asker>(
    alloc: Global,
    tree: &mut R,
    readings: &mut Readings,
    resolver: &NodeModulesResolver,
    text: &str,
    found: Searched,
) -> Result<Placed, ResolveError<NodeRefusal>>
    ensures { Resolves (R.asking tree.old) (R.asking tree.new) result
        (searched resolver.now text.now found) }
{
    match found {
        Searched::File(file) => Ok(ruled_file(alloc, tree, readings, resolver, file)?),
        Searched::Nothing | Searched::Unfound => {
            let text = Text::of(alloc, text)?;
            Err(ResolveError::Refused(NodeRefusal::NotFound { text }))
        }
        Searched::Malformed(package) => {
            let path = package.into_text()?;
            Err(ResolveError::Refused(NodeRefusal::MalformedPackage { path }))
        }
    }
}

/// The text of a subpath behind a location, taken by the letter.
pub fn text_behind(alloc: Global, location: &CleanPath, subpath: &str) -> Result<String, AllocError>
    ensures { IfOk result (λ s. string_bytes s ≡ behind location.now subpath.now) }
{
    let mut text = String::from_str(alloc, location.as_str())?;
    text.push_str("/")?;
    text.push_str(subpath)?;
    Ok(text)
}
