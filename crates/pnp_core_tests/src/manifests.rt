// What a manifest says: values from outside, and that reading one succeeds.
ghost use Rattle.std.specs.Prelude.{IfOk, IfSome};
ghost use Rattle.pnp_core.specs.Owner.{IsReady};

use crate::rows::{Told, rows_come};
use pnp_core::{
    Error, Manifest, PackageLocator, ReadManifestError, closest_manifest,
    find_closest_pnp_manifest_path, find_pnp_manifest, has_package, init_pnp_manifest,
    load_pnp_manifest, loaded_manifest, manifest_of_bytes, payload_of, read_manifest,
};
use serde_json::Value;
use std::alloc::{AllocError, Global};
use std::test::Fail;
use sugar_path::{Bytes, CleanPath, Text};
use tree_core::{MemoryTree, Recorder};

// An application with packages `foo` and `alone`, a package `hidden` that owns no path, a virtual one, and one inside
// an archive. Yarn's own pattern leaves its folder of editor tools without an owner.
pub(crate) fn manifest_text() -> &'static str {
    r#"const RAW_RUNTIME_STATE =
'{"dependencyTreeRoots":[{"name":"app","reference":"workspace:."}],"enableTopLevelFallback":true,"ignorePatternData":"(^(?:\\\\.yarn\\\\/sdks(?:\\\\/(?!\\\\.{1,2}(?:\\\\/|$))(?:(?:(?!(?:^|\\\\/)\\\\.{1,2}(?:\\\\/|$)).)*?)|$))$)","fallbackExclusionList":[["app",["workspace:."]],["alone",["npm:1.0.0"]]],"fallbackPool":[["pooled","npm:3.0.0"]],"packageRegistryData":[[null,[[null,{"packageLocation":"./","packageDependencies":[["foo","npm:1.0.0"],["top","npm:4.0.0"]]}]]],["app",[["workspace:.",{"packageLocation":"./","packageDependencies":[["foo","npm:1.0.0"],["other",["foo","npm:1.0.0"]]]}]]],["foo",[["npm:1.0.0",{"packageLocation":"./.yarn/foo/","packageDependencies":[["peer",null],["top",null]]}]]],["alone",[["npm:1.0.0",{"packageLocation":"./.yarn/alone/","packageDependencies":[["peer",null]]}]]],["hidden",[["npm:1.0.0",{"packageLocation":"./.yarn/foo/hidden/","discardFromLookup":true,"packageDependencies":[]}]]],["peered",[["virtual:ab#npm:1.0.0",{"packageLocation":"./.yarn/__virtual__/peered-virtual-ab/1/packages/peered/","packageDependencies":[]}]]],["zipped",[["npm:1.0.0",{"packageLocation":"./.yarn/cache/zipped.zip/node_modules/zipped/","packageDependencies":[]}]]]]}';
"#
}

/// The path that an absolute text names.
pub(crate) fn path(alloc: Global, text: &str) -> Result<CleanPath, Fail> {
    Ok(CleanPath::read(alloc, &CleanPath::root(alloc), text)?)
}

/// The tree of one file, `/w/.pnp.cjs`.
pub(crate) fn tree_of(alloc: Global, content: &[u8]) -> Result<MemoryTree, Fail> {
    let mut tree = MemoryTree::new(alloc);
    tree.put("/w/.pnp.cjs", content, "/w/.pnp.cjs")?;
    Ok(tree)
}

/// The manifest that a text is at that path, ready; none where it is no manifest.
fn manifest_in(alloc: Global, text: &str) -> Result<Option<Manifest>, Error>
    ensures { IfOk result (λ found. IfSome found IsReady) }
{
    let file = CleanPath::read(alloc, &CleanPath::root(alloc), "/w/.pnp.cjs")?;
    let bytes = Bytes::of(alloc, text.as_bytes())?;
    match manifest_of_bytes(alloc, &bytes, &file) {
        Ok(manifest) => Ok(Some(manifest)),
        Err(_) => Ok(None),
    }
}

/// What a manifest's text says, ready.
pub(crate) fn ready_from(alloc: Global, text: &str) -> Result<Manifest, Fail>
    ensures { IfOk result IsReady }
{
    match manifest_in(alloc, text)? {
        Some(manifest) => Ok(manifest),
        None => Err(Fail::from("no manifest")),
    }
}

/// The manifest of the application above, as a search for it may end.
pub(crate) fn found_manifest(alloc: Global) -> Result<Option<Manifest>, Error>
    ensures { IfOk result (λ found. IfSome found IsReady) }
{
    manifest_in(alloc, manifest_text())
}

// Values that are no manifest.
fn others() -> &'static str {
    r#"{} = bad JSON
null = bad JSON
[] = bad JSON
{"enableTopLevelFallback":1.5} = bad JSON"#
}

pub(crate) fn refusal_told(alloc: Global, text: &str) -> Result<Text, Fail> {
    let value = Value::from_str(alloc, text)?;
    match read_manifest(alloc, &value) {
        Err(ReadManifestError::BadJson) => Ok(Text::of(alloc, "bad JSON")?),
        _ => Ok(Text::of(alloc, "something else")?),
    }
}

#[test]
fn other_values_are_no_manifests(rt: HostRuntime) -> Result<(), Fail> {
    rows_come(&rt, rt.alloc(), Told::Refusal, others())
}

// What that text says, without a folder.
fn manifest(alloc: Global) -> Result<Manifest, Fail> {
    let payload = payload_of(alloc, manifest_text())?.ok_or("no payload")?;
    let value = Value::from_str(alloc, payload.as_str())?;
    Ok(read_manifest(alloc, &value)?)
}

// What the text says of itself, before it has a folder.
fn is_as_written(manifest: &Manifest) -> bool {
    manifest.manifest_path.as_str().is_empty()
        && manifest.enable_top_level_fallback
        && manifest.fallback_pool.len() == 1
        && manifest.dependency_tree_roots.len() == 1
}

// Gives a manifest the path of its file, if it has a top-level row, and tells whether it has.
fn init(alloc: Global, manifest: &mut Manifest, file: &CleanPath) -> Result<bool, AllocError> {
    let top_level = PackageLocator::top_level(alloc);
    if !has_package(manifest, &top_level) {
        return Ok(false);
    }
    init_pnp_manifest(alloc, manifest, file.as_str())?;
    Ok(true)
}

// Whether a manifest is as it is written, and then gets its folder.
fn gets_its_folder(alloc: Global, manifest: &mut Manifest) -> Result<bool, Fail> {
    let file = path(alloc, "/w/.pnp.cjs")?;
    let was_as_written = is_as_written(manifest);
    let has_top_level = init(alloc, manifest, &file)?;
    Ok(was_as_written && has_top_level && manifest.manifest_dir.as_str() == "/w")
}

#[test]
fn a_manifest_is_read_and_gets_its_folder(rt: HostRuntime) -> Result<(), Fail> {
    let mut manifest = manifest(rt.alloc())?;
    assert!(rt; gets_its_folder(rt.alloc(), &mut manifest)?);
    Ok(())
}

// Whether the manifest is nearest, by its path and by its text.
fn is_nearest(
    alloc: Global,
    tree: &mut Recorder<'_, MemoryTree>,
    importer: &CleanPath,
    file: &str,
) -> Result<bool, Fail> {
    let found = closest_manifest(alloc, tree, importer)?;
    let told = find_closest_pnp_manifest_path(alloc, tree, importer.as_str())?;
    Ok(match (&found, &told) {
        (Some(found), Some(told)) => found.as_str() == file && told.as_str() == file,
        _ => false,
    })
}

// Whether that file is a manifest, by each call that reads it.
fn is_read(alloc: Global, tree: &mut Recorder<'_, MemoryTree>, file: &CleanPath) -> bool {
    loaded_manifest(alloc, tree, file).is_ok()
        && load_pnp_manifest(alloc, tree, file.as_str()).is_ok()
}

fn is_found(alloc: Global, tree: &mut Recorder<'_, MemoryTree>, importer: &CleanPath) -> bool {
    let found = find_pnp_manifest(alloc, tree, importer.as_str());
    matches!(&found, Ok(Some(_)))
}

#[test]
fn the_nearest_manifest_is_found_and_read(rt: HostRuntime) -> Result<(), Fail> {
    let importer = path(rt.alloc(), "/w/lib/a.js")?;
    let file = path(rt.alloc(), "/w/.pnp.cjs")?;
    let mut tree = tree_of(rt.alloc(), manifest_text().as_bytes())?;
    let mut recorder = Recorder::new(rt.alloc(), &mut tree);
    assert!(rt; is_nearest(rt.alloc(), &mut recorder, &importer, file.as_str())?);
    assert!(rt; is_read(rt.alloc(), &mut recorder, &file));
    assert!(rt; is_found(rt.alloc(), &mut recorder, &importer));
    Ok(())
}
