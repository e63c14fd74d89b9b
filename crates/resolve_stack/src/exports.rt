// The exports of a bound package, where the project gives conditions.
ghost use Rattle.std.specs.Prelude.{◌≡◌, IfOk, Some, Err, string_bytes};
ghost use Rattle.std.specs.Option.{option_copied};
ghost use Rattle.tree_core.specs.Resolving.{Resolves, IsDecided};
ghost use Rattle.deno_package_json.specs.Package.{package_of};
ghost use Rattle.sugar_path.specs.Path.{Path};
ghost use Rattle.resolve_stack.specs.Exports.{export_key, exports_at, exports_in_content, exports_seen};
ghost use Rattle.resolve_stack.specs.Exports.{file_by_exports, file_under, closed_file, target_text, without_dot_slash};
ghost use Rattle.resolve_stack.specs.Rows.{exported_file};
ghost use Rattle.resolve_stack.specs.declared.verdict.JoinRefusal.TheVariants.{NotFound};

use crate::{JoinRefusal, Project};
use deno_package_json::PackageJson;
use package_readings::PackageReadings;
use std::alloc::{AllocError, Global};
use sugar_path::{Bytes, CleanPath, Text};
use swc_loader::{is_closed, text_behind};
use tree_core::{Asker, ResolveError};

// The file that the exports of the package at a location mean by a subpath, under the project's conditions. None where
// the project has no conditions or the package no exports.
pub(crate) fn exported_file<R: Asker>(
    alloc: Global,
    tree: &mut R,
    packages: &mut PackageReadings,
    project: &Project<'_>,
    location: &CleanPath,
    subpath: Option<&str>,
) -> Result<Option<CleanPath>, ResolveError<JoinRefusal>>
    ensures { Resolves (R.asking tree.old) (R.asking tree.new) result
        (exported_file project.now location.now (option_copied subpath.entry)) }
{
    match project.conditions() {
        Some(conditions) => {
            let key = export_key(alloc, location, subpath)?;
            file_under(alloc, tree, packages, conditions.as_slice(), location, key)
        }
        None => Ok(None),
    }
}

// The key that is looked up: `.` for the package itself, else `./` and the subpath.
fn export_key(
    alloc: Global,
    location: &CleanPath,
    subpath: Option<&str>,
) -> Result<Text, AllocError>
    ensures { IfOk result (λ key. key ≡ export_key location.now (option_copied subpath.entry)) }
{
    let Some(subpath) = subpath else {
        return Text::of(alloc, ".");
    };
    let text = text_behind(alloc, location, subpath)?;
    let at = CleanPath::read(alloc, &CleanPath::root(alloc), text.as_str())?;
    if at == *location {
        return Text::of(alloc, ".");
    }
    let mut key = String::from_str(alloc, "./")?;
    key.push_str(subpath)?;
    Ok(Text::from(key))
}

// The file that the exports at a location mean by a key under conditions.
fn file_under<R: Asker>(
    alloc: Global,
    tree: &mut R,
    packages: &mut PackageReadings,
    conditions: &[Text],
    location: &CleanPath,
    key: Text,
) -> Result<Option<CleanPath>, ResolveError<JoinRefusal>>
    ensures { Resolves (R.asking tree.old) (R.asking tree.new) result
        (file_under (Some conditions.now) location.now key) }
{
    match package_at(alloc, tree, packages, location)? {
        Some(package_json) => {
            file_by_exports(alloc, tree, package_json, conditions, location, key)
        }
        None => Ok(None),
    }
}

// The package at a location, where its package.json is a file.
fn package_at<'r, R: Asker>(
    alloc: Global,
    tree: &mut R,
    packages: &'r mut PackageReadings,
    location: &CleanPath,
) -> Result<Option<&'r PackageJson>, ResolveError<JoinRefusal>>
    ensures { Resolves (R.asking tree.old) (R.asking tree.new) (exports_seen result)
        (exports_at location.now) }
{
    let file = location.child(alloc, "package.json")?;
    if !tree.is_file(&file)? {
        return Ok(None);
    }
    match tree.read(&file)? {
        Some(content) => package_in(alloc, packages, file, content),
        None => Ok(None),
    }
}

// The package that the bytes of a package.json are.
fn package_in<'r>(
    alloc: Global,
    packages: &'r mut PackageReadings,
    file: CleanPath,
    content: Bytes,
) -> Result<Option<&'r PackageJson>, ResolveError<JoinRefusal>>
    ensures { IsDecided (exports_seen result) (exports_in_content file (Some content)) }
{
    match packages.package_of(alloc, content)? {
        Some(read) => Ok(Some(&read.package_json)),
        None => Err(ResolveError::Refused(JoinRefusal::MalformedPackage {
            path: file.into_text()?,
        })),
    }
}

// The file that a package's exports mean by a key under conditions.
fn file_by_exports<R: Asker>(
    alloc: Global,
    tree: &mut R,
    package_json: &PackageJson,
    conditions: &[Text],
    location: &CleanPath,
    key: Text,
) -> Result<Option<CleanPath>, ResolveError<JoinRefusal>>
    ensures { Resolves (R.asking tree.old) (R.asking tree.new) result
        (file_by_exports conditions.now location.now key (package_of package_json.now).exports) }
{
    if package_json.exports.is_none() {
        return Ok(None);
    }
    match package_json.exported(alloc, key.as_str(), conditions)? {
        Some(target) => target_file(alloc, tree, location, target.as_str()),
        None => Err(ResolveError::Refused(JoinRefusal::NotExported {
            location: location.to_text(alloc)?,
            key,
        })),
    }
}

// The file that a target means: a closed text behind the location, with no ending and no folder tried.
fn target_file<R: Asker>(
    alloc: Global,
    tree: &mut R,
    location: &CleanPath,
    target: &str,
) -> Result<Option<CleanPath>, ResolveError<JoinRefusal>>
    ensures { Resolves (R.asking tree.old) (R.asking tree.new) result
        (closed_file (target_text location.now target.now)) }
{
    let text = text_behind(alloc, location, without_dot_slash(target))?;
    if !is_closed(text.as_str()) {
        return not_found(text);
    }
    let file = CleanPath::read(alloc, &CleanPath::root(alloc), text.as_str())?;
    if tree.is_file(&file)? {
        Ok(Some(file))
    } else {
        not_found(text)
    }
}

// The refusal of a text that means no file.
fn not_found(text: String) -> Result<Option<CleanPath>, ResolveError<JoinRefusal>>
    ensures { IsDecided result (Err (NotFound (string_bytes text))) }
{
    Err(ResolveError::Refused(JoinRefusal::NotFound {
        text: Text::from(text),
    }))
}

// A target without its `./`.
fn without_dot_slash(target: &str) -> &str
    ensures { result.now ≡ without_dot_slash target.now }
{
    match target.strip_prefix("./") {
        Some(file) => file,
        None => target,
    }
}
