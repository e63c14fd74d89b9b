// Why bindings are refused, by hand.
use crate::fixtures::{first_lock, later_lock, locator};
use lock_checks::{Edge, EdgeFault, Lock, check_binding};
use package_readings::PackageReadings;
use pnp_core::{Manifest, PackageLocator, loaded_manifest};
use std::alloc::{AllocError, Global};
use std::process::Abort;
use std::test::Fail;
use sugar_path::CleanPath;
use tree_core::{MemoryTree, Recorder};
use yarn_lock_parser::parse_str;

fn manifest_text() -> &'static str {
    r#"const RAW_RUNTIME_STATE =
'{"dependencyTreeRoots":[],"enableTopLevelFallback":false,"ignorePatternData":null,"fallbackExclusionList":[],"fallbackPool":[],"packageRegistryData":[[null,[[null,{"packageLocation":"./","packageDependencies":[]}]]],["app",[["workspace:.",{"packageLocation":"./","packageDependencies":[]}],["workspace:new",{"packageLocation":"./new/","packageDependencies":[]}]]],["silent",[["npm:1.0.0",{"packageLocation":"./silent/","packageDependencies":[]}]]],["empty",[["npm:1.0.0",{"packageLocation":"./empty/","packageDependencies":[]}]]],["broken",[["npm:1.0.0",{"packageLocation":"./broken/","packageDependencies":[]}]]],["floating",[["npm:1.0.0",{"packageLocation":"./floating/","packageDependencies":[]}]]],["mixed",[["npm:1.0.0",{"packageLocation":"./mixed/","packageDependencies":[]}]]],["packed",[["npm:1.0.0",{"packageLocation":"./cache/packed.zip/node_modules/packed/","packageDependencies":[]}]]],["peered",[["virtual:ab#npm:1.0.0",{"packageLocation":"./__virtual__/peered-ab/0/broken/","packageDependencies":[]}]]],["lodash",[["npm:4.17.20",{"packageLocation":"./lodash/","packageDependencies":[]}],["virtual:ab#npm:4.17.20",{"packageLocation":"./lodash/","packageDependencies":[]}],["npm:4.17.22",{"packageLocation":"./lodash/","packageDependencies":[]}]]],["twice",[["npm:1.0.0",{"packageLocation":"./twice/","packageDependencies":[]}]]],["odd",[["npm:1.0.0",{"packageLocation":"./odd/","packageDependencies":[]}]]],["patched",[["patch:patched@npm%3A1.0.0#fix.patch",{"packageLocation":"./patched/","packageDependencies":[]}]]]]}';
"#
}

fn application() -> &'static str {
    r#"{
  "dependencies": {
    "lodash": "^4.17.21",
    "near": " ~4.17.0 ",
    "alias": "npm:other@^5",
    "tagged": "latest",
    "linked": "workspace:^9.0.0",
    "hosted": "git:^9.0.0",
    "unread": "!",
    "first": "^1.0.0",
    "any": "*"
  },
  "devDependencies": {
    "lodash": "^4.0.0",
    "second": "2.0.0"
  }
}"#
}

fn put(tree: &mut MemoryTree, path: &str, text: &str) -> Result<(), Fail> {
    tree.put(path, text.as_bytes(), path)?;
    Ok(())
}

fn tree_of_packages(alloc: Global) -> Result<MemoryTree, Fail> {
    let mut tree = MemoryTree::new(alloc);
    put(&mut tree, "/w/.pnp.cjs", manifest_text())?;
    put(&mut tree, "/w/package.json", application())?;
    put(&mut tree, "/w/empty/package.json", " \n")?;
    put(&mut tree, "/w/broken/package.json", "{")?;
    put(&mut tree, "/w/floating/package.json", r#"{"x":1.5}"#)?;
    put(
        &mut tree,
        "/w/mixed/package.json",
        r#"{"exports":{"./a":"./a.js","import":"./b.js"}}"#,
    )?;
    put(
        &mut tree,
        "/w/cache/packed.zip/node_modules/packed/package.json",
        "{",
    )?;
    Ok(tree)
}

// What a binding comes to, in a word.
fn told(alloc: Global, fault: Option<EdgeFault>) -> Result<String, AllocError> {
    match fault {
        None => String::from_str(alloc, "passes"),
        Some(EdgeFault::NotInRegistry) => String::from_str(alloc, "not in registry"),
        Some(EdgeFault::NotLocked) => String::from_str(alloc, "not locked"),
        Some(EdgeFault::MalformedPackage { path }) => format!(in alloc; "malformed {path}"),
        Some(EdgeFault::OutOfRange { range, version }) => {
            format!(in alloc; "{version} out of [{range}]")
        }
    }
}

// The package that asks, the name that it asks for, the package that this is bound to, and what comes of it, on each
// line.
fn bindings_by_later_lock() -> &'static str {
    "app@workspace:. lodash lodash@npm:4.17.20 = 4.17.20 out of [^4.17.21]
app@workspace:. lodash lodash@virtual:ab#npm:4.17.20 = 4.17.20 out of [^4.17.21]
app@workspace:. lodash twice@npm:1.0.0 = 1.0.0 out of [^4.17.21]
app@workspace:. near lodash@npm:4.17.20 = passes
app@workspace:. near twice@npm:1.0.0 = 1.0.0 out of [ ~4.17.0 ]
app@workspace:. alias lodash@npm:4.17.20 = 4.17.20 out of [^5]
app@workspace:. tagged lodash@npm:4.17.20 = passes
app@workspace:. linked lodash@npm:4.17.20 = passes
app@workspace:. hosted lodash@npm:4.17.20 = passes
app@workspace:. unread lodash@npm:4.17.20 = passes
app@workspace:. other lodash@npm:4.17.20 = passes
app@workspace:. first twice@npm:1.0.0 = passes
app@workspace:. second twice@npm:1.0.0 = 1.0.0 out of [2.0.0]
app@workspace:. any odd@npm:1.0.0 = latest out of [*]
app@workspace:. lodash lodash@npm:4.17.22 = not locked
app@workspace:. lodash lodash@npm:4.17.21 = not in registry
app@workspace:. lodash patched@patch:patched@npm%3A1.0.0#fix.patch = passes
app@workspace:. lodash app@workspace:new = passes
broken@npm:1.0.0 lodash lodash@npm:4.17.20 = malformed /w/broken/package.json
broken@npm:1.0.0 lodash lodash@npm:4.17.22 = not locked
broken@npm:1.0.0 lodash patched@patch:patched@npm%3A1.0.0#fix.patch = passes
peered@virtual:ab#npm:1.0.0 lodash lodash@npm:4.17.20 = malformed /w/broken/package.json
floating@npm:1.0.0 lodash lodash@npm:4.17.20 = malformed /w/floating/package.json
mixed@npm:1.0.0 lodash lodash@npm:4.17.20 = malformed /w/mixed/package.json
silent@npm:1.0.0 lodash lodash@npm:4.17.20 = passes
empty@npm:1.0.0 lodash lodash@npm:4.17.20 = passes
packed@npm:1.0.0 lodash lodash@npm:4.17.20 = passes
packed@npm:1.0.0 lodash lodash@npm:4.17.22 = not locked"
}

fn bindings_by_first_lock() -> &'static str {
    "app@workspace:. lodash lodash@npm:4.17.20 = 4.17.20 out of [^4.17.21]
app@workspace:. first twice@npm:1.0.0 = passes
app@workspace:. lodash odd@npm:1.0.0 = not locked"
}

fn bindings_without_lock() -> &'static str {
    "app@workspace:. lodash lodash@npm:4.17.20 = passes
app@workspace:. lodash lodash@npm:4.17.22 = passes
broken@npm:1.0.0 lodash lodash@npm:4.17.20 = passes
app@workspace:. lodash lodash@npm:4.17.21 = not in registry"
}

fn path(alloc: Global, text: &str) -> Result<CleanPath, AllocError> {
    CleanPath::read(alloc, &CleanPath::root(alloc), text)
}

fn manifest_of(alloc: Global) -> Result<Manifest, Fail> {
    let mut tree = tree_of_packages(alloc)?;
    let mut recorder = Recorder::new(alloc, &mut tree);
    let file = path(alloc, "/w/.pnp.cjs")?;
    let manifest = loaded_manifest(alloc, &mut recorder, &file)?;
    Ok(manifest)
}

// A package by its name and its reference.
fn package(alloc: Global, text: &str) -> Result<PackageLocator, Fail> {
    let (name, reference) = text.split_once('@').ok_or("no reference")?;
    Ok(locator(alloc, name, reference)?)
}

// What comes of a binding, as a line asks for it.
fn found(
    alloc: Global,
    recorder: &mut Recorder<'_, MemoryTree>,
    packages: &mut PackageReadings,
    lock: Option<&Lock<'_>>,
    manifest: &Manifest,
    line: &str,
) -> Result<String, Fail> {
    let (owner, asked) = line.split_once(' ').ok_or("no owner")?;
    let (name, bound) = asked.split_once(' ').ok_or("no name")?;
    let owner = package(alloc, owner)?;
    let bound = package(alloc, bound)?;
    let edge = Edge {
        manifest,
        owner: &owner,
        name,
        bound: &bound,
    };
    let fault = check_binding(alloc, recorder, packages, lock, &edge)?;
    Ok(told(alloc, fault)?)
}

fn comes_to(
    rt: &impl Abort,
    alloc: Global,
    recorder: &mut Recorder<'_, MemoryTree>,
    packages: &mut PackageReadings,
    lock: Option<&Lock<'_>>,
    manifest: &Manifest,
    line: &str,
) -> Result<(), Fail> {
    let (binding, wanted) = line.split_once(" = ").ok_or("no outcome")?;
    let told = found(alloc, recorder, packages, lock, manifest, binding)?;
    assert_eq!(rt; told.as_str(), wanted, "{binding}");
    Ok(())
}

fn each_comes_to(
    rt: &impl Abort,
    alloc: Global,
    recorder: &mut Recorder<'_, MemoryTree>,
    packages: &mut PackageReadings,
    lock: Option<&Lock<'_>>,
    manifest: &Manifest,
    lines: &str,
) -> Result<(), Fail> {
    for line in lines.lines() {
        comes_to(rt, alloc, recorder, packages, lock, manifest, line)?;
    }
    Ok(())
}

fn come_to(
    rt: &impl Abort,
    alloc: Global,
    lock: Option<&Lock<'_>>,
    lines: &str,
) -> Result<(), Fail> {
    let manifest = manifest_of(alloc)?;
    let mut tree = tree_of_packages(alloc)?;
    let mut recorder = Recorder::new(alloc, &mut tree);
    let mut packages = PackageReadings::new(alloc);
    each_comes_to(
        rt,
        alloc,
        &mut recorder,
        &mut packages,
        lock,
        &manifest,
        lines,
    )
}

#[test]
fn bindings_are_held_to_a_lock(rt: HostRuntime) -> Result<(), Fail> {
    let lock = Lock::of(rt.alloc(), parse_str(rt.alloc(), later_lock())?)?;
    come_to(&rt, rt.alloc(), Some(&lock), bindings_by_later_lock())
}

#[test]
fn bindings_are_held_to_a_lock_of_version_1(rt: HostRuntime) -> Result<(), Fail> {
    let lock = Lock::of(rt.alloc(), parse_str(rt.alloc(), first_lock())?)?;
    come_to(&rt, rt.alloc(), Some(&lock), bindings_by_first_lock())
}

#[test]
fn without_a_lock_rows_alone_count(rt: HostRuntime) -> Result<(), Fail> {
    come_to(&rt, rt.alloc(), None, bindings_without_lock())
}

// How many questions a binding puts, where a line asks for it.
fn questions(alloc: Global, lock: &Lock<'_>, line: &str) -> Result<usize, Fail> {
    let manifest = manifest_of(alloc)?;
    let mut tree = tree_of_packages(alloc)?;
    let mut recorder = Recorder::new(alloc, &mut tree);
    let mut packages = PackageReadings::new(alloc);
    let _told = found(
        alloc,
        &mut recorder,
        &mut packages,
        Some(lock),
        &manifest,
        line,
    )?;
    Ok(recorder.trail().len())
}

// A binding, and how many questions it puts, on each line.
fn asked() -> &'static str {
    "app@workspace:. lodash lodash@npm:4.17.20 = 1
packed@npm:1.0.0 lodash lodash@npm:4.17.20 = 0
broken@npm:1.0.0 lodash app@workspace:new = 0
app@workspace:. lodash lodash@npm:4.17.22 = 0"
}

fn is_asked(alloc: Global, lock: &Lock<'_>, row: &str) -> Result<bool, Fail> {
    let (binding, count) = row.split_once(" = ").ok_or("no number")?;
    Ok(questions(alloc, lock, binding)? == count.parse::<usize>()?)
}

#[test]
fn only_a_plain_owner_is_asked(rt: HostRuntime) -> Result<(), Fail> {
    let lock = Lock::of(rt.alloc(), parse_str(rt.alloc(), later_lock())?)?;
    for row in asked().lines() {
        assert!(rt; is_asked(rt.alloc(), &lock, row)?, "{row}");
    }
    Ok(())
}
