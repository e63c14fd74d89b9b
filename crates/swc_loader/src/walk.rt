// The walk up through the folders' `node_modules`.
ghost use Rattle.std.specs.Prelude.{◌≡◌, ◌∷◌};
ghost use Rattle.sugar_path.specs.Path.{up};
ghost use Rattle.tree_core.specs.Asks.{Asks};
ghost use Rattle.swc_loader.specs.Walk.{in_modules as in_modules_plan, walk as walk_plan};
ghost use Rattle.swc_loader.specs.Walk.{in_its_modules as in_its_modules_plan, ends_walk, may_have_modules};

use crate::search::{joined, place};
use crate::{Conventions, Readings, SearchContext, Searched};
use std::alloc::Global;
use sugar_path::CleanPath;
use tree_core::{Asker, ReadError};

// What the first folder gives whose `node_modules` has the target, from a folder upwards.
pub(crate) fn walk<R: Asker>(
    alloc: Global,
    tree: &mut R,
    readings: &mut Readings,
    context: &SearchContext<'_>,
    target: &str,
    from: &CleanPath,
) -> Result<Searched, ReadError>
    ensures { Asks (R.asking tree.old) (R.asking tree.new) result
        (walk_plan context.now.conventions.now context.now.target target.now
        (from.now ∷ up from.now)) }
{
    let mut folder = from.try_clone(alloc)?;
    'up: loop {
        let found = in_modules(alloc, tree, readings, context, target, &folder)?;
        if ends_walk(context.conventions, &found) {
            return Ok(found);
        }
        if !folder.go_up() {
            return Ok(Searched::Nothing);
        }
    }
}

// Whether what a folder gives ends the walk.
fn ends_walk(conventions: &Conventions, found: &Searched) -> bool
    ensures { result ≡ ends_walk conventions.now found.now }
{
    match found {
        Searched::File(_) => true,
        Searched::Nothing => false,
        Searched::Malformed(_) => conventions.malformed_ends_walk(),
        Searched::Unfound => conventions.unfound_ends_walk(),
    }
}

// What one folder's `node_modules` has of the target.
fn in_modules<R: Asker>(
    alloc: Global,
    tree: &mut R,
    readings: &mut Readings,
    context: &SearchContext<'_>,
    target: &str,
    folder: &CleanPath,
) -> Result<Searched, ReadError>
    ensures { Asks (R.asking tree.old) (R.asking tree.new) result
        (in_modules_plan context.now.conventions.now context.now.target target.now folder.now) }
{
    if !may_have_modules(context.conventions, folder) {
        return Ok(Searched::Nothing);
    }
    in_its_modules(alloc, tree, readings, context, target, folder)
}

// Whether a folder may have a `node_modules` of its own.
fn may_have_modules(conventions: &Conventions, folder: &CleanPath) -> bool
    ensures { result ≡ may_have_modules conventions.now folder.now }
{
    if conventions.modules_in_modules() {
        return true;
    }
    match folder.last_name() {
        Some(name) => name != "node_modules",
        None => true,
    }
}

// What the `node_modules` of a folder that may have one has of the target.
fn in_its_modules<R: Asker>(
    alloc: Global,
    tree: &mut R,
    readings: &mut Readings,
    context: &SearchContext<'_>,
    target: &str,
    folder: &CleanPath,
) -> Result<Searched, ReadError>
    ensures { Asks (R.asking tree.old) (R.asking tree.new) result
        (in_its_modules_plan context.now.conventions.now context.now.target target.now folder.now) }
{
    let modules = folder.child(alloc, "node_modules")?;
    if !tree.is_dir(&modules)? {
        return Ok(Searched::Nothing);
    }
    let text = joined(alloc, &modules, target)?;
    let at = CleanPath::read(alloc, &CleanPath::root(alloc), text.as_str())?;
    place(alloc, tree, readings, context, text.as_str(), &at)
}
