// A manifest gets its folder, and its rows the locations that they have from there.
ghost use Rattle.std.specs.Prelude.{
  ◌≡◌,
  ◌≤◌,
  ◌⊎◌,
  ◌∷◌,
  ◌++◌,
  [],
  IfOk,
  OnOk,
  OnErr,
  IsTrue,
  IsSome,
  IfSome,
  map,
  filter,
  is_none,
  bytes_eq,
  string_bytes,
  vec_len,
};
ghost use Rattle.indexmap.specs.IndexMap.{insert_all, spare};
ghost use Rattle.sugar_path.specs.Path.{
  Path,
  IsPath,
  IsCleanPath,
  path_in,
  is_absolute,
  ends_in_slash,
  join,
  with_slash,
};
ghost use Rattle.pnp_core.specs.NormalizePath.{location_path, normalize_path};
ghost use Rattle.pnp_core.specs.Slashed.{slashed};
ghost use Rattle.pnp_core.specs.Manifest.{at, locator, rows, rows_under, top_level, has_row, package_at};
ghost use Rattle.pnp_core.specs.ManifestReading.{initialized, located, located_registry, located_rows};
ghost use Rattle.pnp_core.specs.Owner.{IsReady};
ghost use Rattle.pnp_core.specs.Relocated.{changed, placed, locations_of, all_locations, overlaid, missing_of};
ghost use Rattle.pnp_core.specs.Trie.{value_at};

use crate::normalize::{location, text_with_end, with_room};
use crate::registry::package_of;
use crate::{
    Manifest, PackageDependency, PackageInformation, PackageLocator, Trie, physical_place,
};
use indexmap::IndexMap;
use memchr::memchr;
use std::alloc::{AllocError, Global};
use std::marker::Model;
use sugar_path::{CleanPath, Text, is_clean};

/// Gives a manifest that was read the path of its file: sets its folder and its path, reads its locations from the
/// folder,
/// fills its pool, and makes the trie of its locations. Where no memory is found, the manifest is as before.
/// A manifest that has its folder already, as one that is given a file once more, still has the trie of its rows: where
/// rows or
/// `manifest_dir` are edited by hand, `location_trie` has to fit them again before the call (or `manifest_dir` be
/// empty).
pub fn init_pnp_manifest(alloc: Global, manifest: &mut Manifest, p: &str) -> Result<(), AllocError>
    requires clean { IsCleanPath p.now }
    requires top_level_row { IsTrue (has_row manifest.old top_level) }
    ensures ok { OnOk result (manifest.new ≡ initialized (path_in p.now) manifest.old) }
    ensures ready { OnOk result (IsReady manifest.new) }
    ensures err { OnErr result (manifest.new ≡ manifest.old) }
{
    let mut folder = CleanPath::of(alloc, p)?;
    let manifest_path = folder.to_text(alloc)?;
    let _ = folder.go_up();
    let manifest_dir = folder.to_text(alloc)?;
    let (locations, trie) = located(
        alloc,
        manifest_dir.as_str(),
        &manifest.package_registry_data,
    )?;
    let missing = missing_bindings(alloc, manifest)?;
    manifest.fallback_pool.reserve(missing.len())?;

    fill(&mut manifest.fallback_pool, missing);
    place_all(&mut manifest.package_registry_data, locations);
    manifest.location_trie = trie;
    manifest.manifest_dir = manifest_dir;
    manifest.manifest_path = manifest_path;
    Ok(())
}

// The location of a row, and its physical place. It is seen as its text.
#[derive(Drop)]
struct RowLocation {
    text: Text,
    place: Option<CleanPath>,
}

impl Model for RowLocation {
    ghost use Rattle.std.specs.Prelude.{◌≡◌};
    ghost use Rattle.std.specs.Prelude as prelude;
    ghost use Rattle.pnp_core.specs.PhysicalPlace.{physical_place};

    ghost Value = { prelude.List prelude.ℕ };

    ghost view = { λ l. l.text };

    ghost invariant = { λ l. l.place ≡ physical_place l.text };
}

impl RowLocation {
    fn of(alloc: Global, text: Text) -> Result<RowLocation, AllocError>
        ensures { IfOk result (λ location. location ≡ text) }
    {
        let place = physical_place(alloc, text.as_str())?;
        Ok(RowLocation { text, place })
    }
}

// Where each row's package stands, by name, and the locator of the last row at each location, of those that aren't
// discarded.
fn located(
    alloc: Global,
    folder: &str,
    registry: &IndexMap<Text, IndexMap<Text, PackageInformation>>,
) -> Result<(Vec<Vec<RowLocation>>, Trie<PackageLocator>), AllocError>
    requires { IsTrue (is_absolute folder.now) }
    ensures locations { IfOk result (λ made.
        map (λ locations. locations.items) made.0.items
        ≡ all_locations folder.now (map (λ named. (named.0, named.1.entries)) registry.now.entries)) }
    ensures trie { IfOk result (λ made.
        let rows_by_name = map (λ named. (named.0, named.1.entries)) registry.now.entries in
        (l : Path) → IsPath l
        → value_at made.1 l ≡ overlaid (rows (located_registry folder.now rows_by_name)) [] l) }
{
    let mut found = Vec::with_capacity(alloc, registry.len())?;
    let mut trie = Trie::new(alloc);
    for (name, references) in registry.iter() {
        found.push(locate_rows(alloc, &mut trie, folder, name, references)?)?;
    }
    Ok((found, trie))
}

// Puts the rows of one name at their locations, and says where they stand.
fn locate_rows(
    alloc: Global,
    trie: &mut Trie<PackageLocator>,
    folder: &str,
    name: &Text,
    references: &IndexMap<Text, PackageInformation>,
) -> Result<Vec<RowLocation>, AllocError>
    requires { IsTrue (is_absolute folder.now) }
    ensures locations { IfOk result (λ found.
        found.items ≡ locations_of folder.now references.now.entries) }
    ensures trie { OnOk result (
        let located = located_rows folder.now references.now.entries in
        (l : Path) → IsPath l
        → value_at trie.new l ≡ overlaid (rows_under (name.now, located)) trie.old l) }
{
    let mut found = Vec::with_capacity(alloc, references.len())?;
    for (reference, package) in references.iter() {
        found.push(locate_row(alloc, trie, folder, name, reference, package)?)?;
    }
    Ok(found)
}

// Puts a row at its location, unless it is discarded, and says where it stands. The location is cleaned once for both.
fn locate_row(
    alloc: Global,
    trie: &mut Trie<PackageLocator>,
    folder: &str,
    name: &Text,
    reference: &Text,
    row: &PackageInformation,
) -> Result<RowLocation, AllocError>
    requires { IsTrue (is_absolute folder.now) }
    ensures location { IfOk result (λ text.
        text ≡ normalize_path (join folder.now row.now.package_location)) }
    ensures trie { OnOk result (
        (l : Path) → IsPath l
        → value_at trie.new l
        ≡ overlaid ((locator name.now reference.now, located folder.now row.now) ∷ []) trie.old l) }
{
    let (path, text) = located_at(alloc, folder, row.package_location.as_str())?;
    let location = RowLocation::of(alloc, text)?;
    if row.discard_from_lookup {
        return Ok(location);
    }
    let locator = PackageLocator {
        name: name.try_clone(alloc)?,
        reference: reference.try_clone(alloc)?,
    };
    match trie.insert_at(path, locator) {
        Ok(()) => Ok(location),
        Err((_, e)) => Err(e),
    }
}

// The path that a location names from a folder, and its text in normal form.
fn located_at(alloc: Global, folder: &str, text: &str) -> Result<(CleanPath, Text), AllocError>
    requires { IsTrue (is_absolute folder.now) }
    ensures path { IfOk result (λ at. at.0 ≡ location_path (join folder.now text.now)) }
    ensures text { IfOk result (λ at. at.1 ≡ normalize_path (join folder.now text.now)) }
{
    if let Some(path) = plain_location(alloc, folder, text)? {
        let normal = text_with_end(alloc, text, &path)?;
        return Ok((path, normal));
    }
    let joined = joined_texts(alloc, folder, text)?;
    let path = location(alloc, joined.as_str())?;
    let normal = text_with_end(alloc, joined.as_str(), &path)?;
    Ok((path, normal))
}

// The path that a location names from a folder, where it is written as Yarn writes it: `./`, and then names. It isn't
// read name by name.
fn plain_location(alloc: Global, folder: &str, text: &str) -> Result<Option<CleanPath>, AllocError>
    requires { IsTrue (is_absolute folder.now) }
    ensures plain { IfOk result (λ found.
        IfSome found (λ p. p ≡ location_path (join folder.now text.now))) }
    ensures ends { IfOk result (λ found.
        IsSome found → ends_in_slash (join folder.now text.now) ≡ ends_in_slash text.now) }
{
    let Some(names) = text.strip_prefix("./") else {
        return Ok(None);
    };
    let mut plain = with_slash(alloc, folder, names.len())?;
    plain.push_str(without_end(names))?;
    if is_plain(plain.as_str()) {
        Ok(Some(CleanPath::from_clean(Text::from(plain))))
    } else {
        Ok(None)
    }
}

// Whether a text is that of a clean path, without `\`.
fn is_plain(text: &str) -> bool
    ensures clean { IsTrue result → IsCleanPath text.now }
    ensures plain { IsTrue result → slashed text.now ≡ text.now }
{
    is_clean(text) && has_no_backslash(text)
}

// Whether `\` stands nowhere in a text.
pub(crate) fn has_no_backslash(text: &str) -> bool
    ensures { IsTrue result → slashed text.now ≡ text.now }
{
    memchr(b'\\', text.as_bytes()).is_none()
}

// A text without the `/` at its end.
fn without_end(text: &str) -> &str
    ensures { (text.now ≡ result.now) ⊎ (text.now ≡ result.now ++ 47 ∷ []) }
{
    match text.strip_suffix('/') {
        None => text,
        Some(front) => front,
    }
}

// One text behind another, as a path behind a folder.
pub(crate) fn joined_texts(alloc: Global, folder: &str, text: &str) -> Result<String, AllocError>
    ensures { IfOk result (λ s. string_bytes s ≡ join folder.now text.now) }
{
    if text.starts_with('/') {
        let joined = String::from_str(alloc, text)?;
        return Ok(joined);
    }
    let mut joined = with_slash(alloc, folder, text.len())?;
    joined.push_str(text)?;
    Ok(joined)
}

// A folder with a `/` at its end, unless it is empty, and with room for some bytes behind it.
fn with_slash(alloc: Global, folder: &str, room: usize) -> Result<String, AllocError>
    ensures { IfOk result (λ s. string_bytes s ≡ with_slash folder.now) }
{
    let mut text = with_room(alloc, folder, room.saturating_add(1))?;
    if folder.is_empty() {
        return Ok(text);
    }
    if folder.ends_with('/') {
        return Ok(text);
    }
    text.push_str("/")?;
    Ok(text)
}

// The top-level row's bindings of names that the pool lacks.
fn missing_bindings(
    alloc: Global,
    manifest: &Manifest,
) -> Result<Vec<(Text, Option<PackageDependency>)>, AllocError>
    ensures { IfOk result (λ missing. missing.items ≡ missing_of manifest.now) }
{
    let top_level = PackageLocator {
        name: Text::from(String::new(alloc)),
        reference: Text::from(String::new(alloc)),
    };
    match package_of(manifest, &top_level) {
        None => Ok(Vec::new(alloc)),
        Some(package) => missing_from(
            alloc,
            &manifest.fallback_pool,
            &package.package_dependencies,
        ),
    }
}

fn missing_from(
    alloc: Global,
    pool: &IndexMap<Text, Option<PackageDependency>>,
    own: &IndexMap<Text, Option<PackageDependency>>,
) -> Result<Vec<(Text, Option<PackageDependency>)>, AllocError>
    ensures { IfOk result (λ missing.
        missing.items ≡ filter (λ bound. is_none (at bound.0 pool.now.entries)) own.now.entries) }
{
    let mut missing = Vec::new(alloc);
    for (name, dependency) in own.iter() {
        if !pool.contains_key(name) {
            let name = name.try_clone(alloc)?;
            let dependency = copy_of(alloc, dependency)?;
            missing.push((name, dependency))?;
        }
    }
    Ok(missing)
}

pub(crate) fn copy_of(
    alloc: Global,
    dependency: &Option<PackageDependency>,
) -> Result<Option<PackageDependency>, AllocError>
    ensures { IfOk result (λ copy. copy ≡ dependency.now) }
{
    match dependency {
        None => Ok(None),
        Some(PackageDependency::Reference(reference)) => Ok(Some(PackageDependency::Reference(
            reference.try_clone(alloc)?,
        ))),
        Some(PackageDependency::Alias(name, reference)) => {
            let name = name.try_clone(alloc)?;
            let reference = reference.try_clone(alloc)?;
            Ok(Some(PackageDependency::Alias(name, reference)))
        }
    }
}

// Puts bindings into the pool, which has room for them.
fn fill(
    pool: &mut IndexMap<Text, Option<PackageDependency>>,
    missing: Vec<(Text, Option<PackageDependency>)>,
)
    requires { vec_len missing ≤ spare pool.old }
    ensures { pool.new.entries ≡ insert_all bytes_eq pool.old.entries missing.items }
{
    for (name, dependency) in missing {
        match pool.insert(name, dependency) {
            Ok(_) => {}
            Err(_) => unreachable!(),
        }
    }
}

// Sets the locations of all rows.
fn place_all(
    registry: &mut IndexMap<Text, IndexMap<Text, PackageInformation>>,
    mut locations: Vec<Vec<RowLocation>>,
)
    ensures { map (λ named. (named.0, named.1.entries)) registry.new.entries
        ≡ changed (changed placed)
        (map (λ named. (named.0, named.1.entries)) registry.old.entries)
        (map (λ found. found.items) locations.items) }
{
    while let Some(found) = locations.pop() {
        if let Some(references) = registry.get_index_mut(locations.len()) {
            place(references, found);
        }
    }
}

// Sets the locations of the rows of one name.
fn place(references: &mut IndexMap<Text, PackageInformation>, mut locations: Vec<RowLocation>)
    ensures { references.new.entries ≡ changed placed references.old.entries locations.items }
{
    while let Some(location) = locations.pop() {
        if let Some(package) = references.get_index_mut(locations.len()) {
            relocate(package, location);
        }
    }
}

// Sets the location of a row, with its place.
fn relocate(row: &mut PackageInformation, location: RowLocation)
    ensures { row.new ≡ placed row.old location }
{
    let RowLocation { text, place } = location;
    row.package_location = text;
    row.package_place = place;
}
