// The search of a folder, and of the place that a text names.
ghost use Rattle.std.specs.Prelude.{◌≡◌, IfOk, string_bytes};
ghost use Rattle.sugar_path.specs.Path.{join, text_of};
ghost use Rattle.tree_core.specs.Asks.{Asks};
ghost use Rattle.tree_core.specs.Plan.{first_file};
ghost use Rattle.swc_loader.specs.Candidates.{files_at};
ghost use Rattle.swc_loader.specs.Search.{package_file, index_files, places_at, entry_places, specified_files};
ghost use Rattle.swc_loader.specs.Search.{means_folder};
ghost use Rattle.swc_loader.specs.Search.{packaged, place_at, first_or, first_found};
ghost use Rattle.swc_loader.specs.Search.{folder as folder_plan};
ghost use Rattle.swc_loader.specs.declared.search.Searched.TheVariants.{Unfound};

use crate::candidates::{candidate_file, first_with_ending};
use crate::entry::entry_of;
use crate::shape::{is_closed, shape_of};
use crate::{Conventions, PackageEntry, Readings, TargetEnv};
use std::alloc::{AllocError, Global};
use sugar_path::CleanPath;
use tree_core::{Asker, ReadError};

/// What a search goes by.
#[derive(Clone, Copy)]
pub struct SearchContext<'s> {
    /// The order's conventions.
    pub conventions: &'s Conventions,
    /// For what modules are resolved.
    pub target: TargetEnv,
}

/// What a search comes to.
#[derive(Drop)]
pub enum Searched {
    File(CleanPath),
    Nothing,
    /// A package.json that the search reads isn't one, by its path.
    Malformed(CleanPath),
    /// A package.json names an entry, and neither that nor an index file is found.
    Unfound,
}

/// The place of a text that means this path: its file candidates, and then its folder.
pub fn place<R: Asker>(
    alloc: Global,
    tree: &mut R,
    readings: &mut Readings,
    context: &SearchContext<'_>,
    text: &str,
    at: &CleanPath,
) -> Result<Searched, ReadError>
    ensures { Asks (R.asking tree.old) (R.asking tree.new) result
        (place_at context.now.conventions.now context.now.target at.now text.now) }
{
    match specified_file(alloc, tree, context.conventions, text, at)? {
        Some(file) => Ok(Searched::File(file)),
        None => folder(alloc, tree, readings, context, at),
    }
}

// The first file candidate of a specifier's text that is a file.
fn specified_file<R: Asker>(
    alloc: Global,
    tree: &mut R,
    conventions: &Conventions,
    text: &str,
    at: &CleanPath,
) -> Result<Option<CleanPath>, ReadError>
    ensures { Asks (R.asking tree.old) (R.asking tree.new) result
        (first_file (specified_files conventions.now at.now text.now)) }
{
    if means_folder(conventions, text) {
        return Ok(None);
    }
    file_of(alloc, tree, conventions, text, at)
}

// Whether a specifier's text means a folder alone.
fn means_folder(conventions: &Conventions, text: &str) -> bool
    ensures { result ≡ means_folder conventions.now text.now }
{
    conventions.folders_by_slash() && !is_closed(text)
}

// The place of a text without entry: its file candidates, and then the index files of its folder.
pub(crate) fn place_without_entry<R: Asker>(
    alloc: Global,
    tree: &mut R,
    conventions: &Conventions,
    text: &str,
    at: &CleanPath,
) -> Result<Option<CleanPath>, ReadError>
    ensures { Asks (R.asking tree.old) (R.asking tree.new) result
        (first_file (places_at conventions.now at.now text.now)) }
{
    if let Some(file) = file_of(alloc, tree, conventions, text, at)? {
        return Ok(Some(file));
    }
    index(alloc, tree, conventions, at)
}

// The first file candidate of a text that is a file.
fn file_of<R: Asker>(
    alloc: Global,
    tree: &mut R,
    conventions: &Conventions,
    text: &str,
    at: &CleanPath,
) -> Result<Option<CleanPath>, ReadError>
    ensures { Asks (R.asking tree.old) (R.asking tree.new) result
        (first_file (files_at conventions.now at.now text.now)) }
{
    let shape = shape_of(text);
    if !shape.named {
        return Ok(None);
    }
    match at.last_name() {
        None => Ok(None),
        Some(name) => {
            let mut folder = at.try_clone(alloc)?;
            let _below = folder.go_up();
            candidate_file(alloc, tree, conventions, &folder, name, shape.closed)
        }
    }
}

/// The search of a folder: by the entry of its package.json where it has one, else by its index files.
pub fn folder<R: Asker>(
    alloc: Global,
    tree: &mut R,
    readings: &mut Readings,
    context: &SearchContext<'_>,
    folder: &CleanPath,
) -> Result<Searched, ReadError>
    ensures { Asks (R.asking tree.old) (R.asking tree.new) result
        (folder_plan context.now.conventions.now context.now.target folder.now) }
{
    let package_json = folder.child(alloc, "package.json")?;
    if tree.is_file(&package_json)? {
        return packaged_folder(alloc, tree, readings, context, folder, package_json);
    }
    first_index(alloc, tree, context.conventions, folder)
}

// The search of a folder that has a package.json.
fn packaged_folder<R: Asker>(
    alloc: Global,
    tree: &mut R,
    readings: &mut Readings,
    context: &SearchContext<'_>,
    folder: &CleanPath,
    package_json: CleanPath,
) -> Result<Searched, ReadError>
    requires { package_json ≡ package_file folder.now }
    ensures { Asks (R.asking tree.old) (R.asking tree.new) result
        (packaged context.now.conventions.now context.now.target folder.now) }
{
    let conventions = context.conventions;
    let content = tree.read(&package_json)?;
    match entry_of(alloc, readings, conventions, context.target, content)? {
        PackageEntry::Malformed => Ok(Searched::Malformed(package_json)),
        PackageEntry::Missing => first_index(alloc, tree, conventions, folder),
        PackageEntry::At(text) => at_entry(alloc, tree, conventions, folder, text.as_str()),
    }
}

// The search of an entry text behind a folder, without entry. The folder's own index files follow.
fn at_entry<R: Asker>(
    alloc: Global,
    tree: &mut R,
    conventions: &Conventions,
    folder: &CleanPath,
    entry: &str,
) -> Result<Searched, ReadError>
    ensures { Asks (R.asking tree.old) (R.asking tree.new) result
        (first_or Unfound (entry_places conventions.now folder.now entry.now)) }
{
    let text = joined(alloc, folder, entry)?;
    let at = CleanPath::read(alloc, &CleanPath::root(alloc), text.as_str())?;
    match place_without_entry(alloc, tree, conventions, text.as_str(), &at)? {
        Some(file) => Ok(Searched::File(file)),
        None => index_or_unfound(alloc, tree, conventions, folder),
    }
}

// What a folder's index files come to behind an entry that isn't found.
fn index_or_unfound<R: Asker>(
    alloc: Global,
    tree: &mut R,
    conventions: &Conventions,
    folder: &CleanPath,
) -> Result<Searched, ReadError>
    ensures { Asks (R.asking tree.old) (R.asking tree.new) result
        (first_or Unfound (index_files conventions.now folder.now)) }
{
    match index(alloc, tree, conventions, folder)? {
        Some(file) => Ok(Searched::File(file)),
        None => Ok(Searched::Unfound),
    }
}

// What a folder's index files come to.
fn first_index<R: Asker>(
    alloc: Global,
    tree: &mut R,
    conventions: &Conventions,
    folder: &CleanPath,
) -> Result<Searched, ReadError>
    ensures { Asks (R.asking tree.old) (R.asking tree.new) result
        (first_found (index_files conventions.now folder.now)) }
{
    match index(alloc, tree, conventions, folder)? {
        Some(file) => Ok(Searched::File(file)),
        None => Ok(Searched::Nothing),
    }
}

// The first index file of a folder that is a file.
fn index<R: Asker>(
    alloc: Global,
    tree: &mut R,
    conventions: &Conventions,
    folder: &CleanPath,
) -> Result<Option<CleanPath>, ReadError>
    ensures { Asks (R.asking tree.old) (R.asking tree.new) result
        (first_file (index_files conventions.now folder.now)) }
{
    for name in conventions.index_names() {
        if let Some(file) = first_with_ending(alloc, tree, folder, name, conventions.endings())? {
            return Ok(Some(file));
        }
    }
    Ok(None)
}

// A text behind a folder; an absolute one stands alone.
pub(crate) fn joined(alloc: Global, folder: &CleanPath, text: &str) -> Result<String, AllocError>
    ensures { IfOk result (λ s. string_bytes s ≡ join (text_of folder.now) text.now) }
{
    if text.starts_with('/') {
        return String::from_str(alloc, text);
    }
    let mut joined = String::from_str(alloc, folder.as_str())?;
    if !folder.is_root() {
        joined.push_str("/")?;
    }
    joined.push_str(text)?;
    Ok(joined)
}
