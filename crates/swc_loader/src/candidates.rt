// File candidates: the paths at which the text of a specifier may be a file, tried one after the other.
ghost use Rattle.std.specs.Prelude.{◌≡◌, ◌++◌, ◌∷◌, true, false, map, MatchOption, IsTrue};
ghost use Rattle.sugar_path.specs.Path.{IsName, has_no_slash};
ghost use Rattle.tree_core.specs.Asks.{Asks};
ghost use Rattle.tree_core.specs.Plan.{first_file};
ghost use Rattle.swc_loader.specs.Candidates.{has_extension, extension, stem};
ghost use Rattle.swc_loader.specs.Candidates.{with_endings, itself, in_folder, candidates_at};
ghost use Rattle.swc_loader.specs.Endings.{is_ending, AreEndings};

use crate::Conventions;
use std::alloc::Global;
use sugar_path::CleanPath;
use tree_core::{Asker, ReadError};

// The first file candidate of a name in its folder that is a file. One candidate is built after the other.
pub(crate) fn candidate_file<R: Asker>(
    alloc: Global,
    tree: &mut R,
    conventions: &Conventions,
    folder: &CleanPath,
    name: &str,
    closed: bool,
) -> Result<Option<CleanPath>, ReadError>
    requires { IsName name.now }
    ensures { Asks (R.asking tree.old) (R.asking tree.new) result
        (first_file (candidates_at conventions.now (name.now ∷ folder.now) closed)) }
{
    match split_extension(name) {
        Some((stem, extension)) => {
            if let Some(file) = itself_or_ending(alloc, tree, conventions, folder, name, closed)? {
                return Ok(Some(file));
            }
            first_with_ending(alloc, tree, folder, stem, conventions.sources_of(extension))
        }
        None => {
            let first = conventions.first_endings();
            if let Some(file) = first_with_ending(alloc, tree, folder, name, first)? {
                return Ok(Some(file));
            }
            itself_or_ending(alloc, tree, conventions, folder, name, closed)
        }
    }
}

// The name itself, where the text is closed, and then the name with each ending.
fn itself_or_ending<R: Asker>(
    alloc: Global,
    tree: &mut R,
    conventions: &Conventions,
    folder: &CleanPath,
    name: &str,
    closed: bool,
) -> Result<Option<CleanPath>, ReadError>
    requires { IsName name.now }
    ensures { Asks (R.asking tree.old) (R.asking tree.new) result (first_file (in_folder folder.now
        (itself closed name.now ++ with_endings name.now conventions.now.endings))) }
{
    if let Some(file) = itself_if_closed(alloc, tree, folder, name, closed)? {
        return Ok(Some(file));
    }
    first_with_ending(alloc, tree, folder, name, conventions.endings())
}

// The name itself, where the text is closed.
fn itself_if_closed<R: Asker>(
    alloc: Global,
    tree: &mut R,
    folder: &CleanPath,
    name: &str,
    closed: bool,
) -> Result<Option<CleanPath>, ReadError>
    requires { IsName name.now }
    ensures { Asks (R.asking tree.old) (R.asking tree.new) result
        (first_file (in_folder folder.now (itself closed name.now))) }
{
    if !closed {
        return Ok(None);
    }
    let candidate = folder.child(alloc, name)?;
    if tree.is_file(&candidate)? {
        return Ok(Some(candidate));
    }
    Ok(None)
}

// The first of a base with each ending that is a file. One path is built, and each ending is pushed onto it and cut off
// again.
pub(crate) fn first_with_ending<R: Asker>(
    alloc: Global,
    tree: &mut R,
    folder: &CleanPath,
    base: &str,
    endings: &[&str],
) -> Result<Option<CleanPath>, ReadError>
    requires base { IsTrue (has_no_slash base.now) }
    requires endings { AreEndings (map (λ e. e.now) endings.now) }
    ensures { Asks (R.asking tree.old) (R.asking tree.new) result (first_file
        (in_folder folder.now (with_endings base.now (map (λ e. e.now) endings.now)))) }
{
    let mut candidate = folder.try_clone(alloc)?;
    let mut name = String::from_str(alloc, base)?;
    for ending in endings {
        name.push_str(ending)?;
        candidate.go_down(name.as_str())?;
        if tree.is_file(&candidate)? {
            return Ok(Some(candidate));
        }
        let _below = candidate.go_up();
        name.truncate(base.len());
    }
    Ok(None)
}

// The stem and the extension of a name that has one.
fn split_extension(name: &str) -> Option<(&str, &str)>
    ensures { MatchOption result (has_extension name.now ≡ false)
        (λ x. (has_extension name.now ≡ true) × (x.0.now ≡ stem name.now)
        × (x.1.now ≡ extension name.now)) }
{
    match name.rfind('.') {
        Some(dot) if dot > 0 => Some((&name[..dot], &name[dot + 1..])),
        _ => None,
    }
}
