// Values from outside, and that calls succeed: requirements, readers and caches.
use crate::fixtures::requirements;
use crate::packages::{Asked, told_of};
use crate::rows::{Told, rows_come};
use deno_package_json::{
    BTreeMapCache, DenoPkgJsonFs, MapFs, PackageJson, PackageJsonCache, PackageJsonDepValue,
    PackageJsonDepValueParseError, PackageJsonDeps, PackageJsonLoadError, RealDenoPkgJsonFs,
};
use indexmap::IndexMap;
use std::alloc::{AllocError, Global};
use std::fs;
use std::process::Abort;
use std::test::Fail;
use sugar_path::{Bytes, Text};
use tree_core::ReadError;

type Required = Result<PackageJsonDepValue, PackageJsonDepValueParseError>;

// The kind of a requirement, and its texts.
fn shown(alloc: Global, required: &Required) -> Result<String, AllocError> {
    match required {
        Ok(PackageJsonDepValue::Req(req)) => {
            format!(in alloc; "Req {} <{}>", req.name, req.version_req.text())
        }
        Ok(PackageJsonDepValue::Workspace(req)) => format!(in alloc; "Workspace <{}>", req.text()),
        Err(PackageJsonDepValueParseError::VersionReq { text, place }) => {
            format!(in alloc; "VersionReq <{text}> at {place}")
        }
        Err(PackageJsonDepValueParseError::Unsupported { scheme }) => {
            format!(in alloc; "Unsupported <{scheme}>")
        }
    }
}

// Writes a requirement behind the earlier ones.
fn write_required(
    alloc: Global,
    line: &mut String,
    name: &Text,
    required: &Required,
) -> Result<(), AllocError> {
    let behind = if line.is_empty() { "" } else { "; " };
    let shown = shown(alloc, required)?;
    write!(line, "{behind}{name}: {shown}")
}

// The requirements of a package, in their order.
pub(crate) fn required_told(alloc: Global, source: &str) -> Result<String, Fail> {
    told_of(alloc, source, Asked::Requirements)
}

pub(crate) fn required_in(alloc: Global, package: &PackageJson) -> Result<String, Fail> {
    let deps = package.resolve_local_package_json_deps(alloc)?;
    Ok(line_of(alloc, &deps)?)
}

fn line_of(alloc: Global, deps: &PackageJsonDeps) -> Result<String, AllocError> {
    let mut line = String::new(alloc);
    for (name, required) in deps.iter() {
        write_required(alloc, &mut line, name, required)?;
    }
    Ok(line)
}

#[test]
fn values_are_requirements(rt: HostRuntime) -> Result<(), Fail> {
    assert_eq!(rt; required_told(rt.alloc(), "{}")?.as_str(), "");
    rows_come(&rt, rt.alloc(), Told::Requirements, requirements())
}

fn unsupported_message(alloc: Global, scheme: &str) -> Result<Text, AllocError> {
    let scheme = Text::of(alloc, scheme)?;
    PackageJsonDepValueParseError::Unsupported { scheme }.message(alloc)
}

fn unread_message(alloc: Global, text: &str, place: usize) -> Result<Text, AllocError> {
    let text = Text::of(alloc, text)?;
    PackageJsonDepValueParseError::VersionReq { text, place }.message(alloc)
}

#[test]
fn refusals_have_messages(rt: HostRuntime) -> Result<(), Fail> {
    assert_eq!(rt;
        unsupported_message(rt.alloc(), "git")?.as_str(),
        "Not implemented scheme 'git'"
    );
    assert_eq!(rt;
        unread_message(rt.alloc(), "1 %", 2)?.as_str(),
        "Invalid npm version requirement. Unexpected character.\n  %\n  ~"
    );
    Ok(())
}

// The file `/p` with these bytes.
fn files(alloc: Global, bytes: &[u8]) -> Result<MapFs, AllocError> {
    let mut files = IndexMap::new(alloc);
    files.insert(Text::of(alloc, "/p")?, Bytes::of(alloc, bytes)?)?;
    Ok(MapFs::new(files))
}

// The name of the package that the load of a path comes to, or its fault, and how many loads have failed until then.
fn load_told(
    alloc: Global,
    path: &str,
    fs: &mut MapFs,
    cache: Option<&mut BTreeMapCache>,
) -> Result<String, AllocError> {
    let loaded = PackageJson::load_from_path(alloc, path, fs, cache);
    let faults = fs.faults();
    match &loaded {
        Ok(package) => {
            let name = package.name.as_ref().map_or("none", |name| name.as_str());
            format!(in alloc; "{name} {faults}")
        }
        Err(PackageJsonLoadError::Io { path }) => format!(in alloc; "Io {path} {faults}"),
        Err(_) => String::from_str(alloc, "refused"),
    }
}

#[test]
fn files_are_loaded_by_their_paths(rt: HostRuntime) -> Result<(), Fail> {
    let mut fs = files(rt.alloc(), b"{\"name\":\"n\xff\"}")?;
    let found = load_told(rt.alloc(), "/p", &mut fs, None)?;
    assert_eq!(rt; found.as_str(), "n\u{fffd} 0");
    let absent = load_told(rt.alloc(), "/", &mut fs, None)?;
    assert_eq!(rt; absent.as_str(), "Io / 1");
    Ok(())
}

// A file is loaded, one that is absent, and the first one again, which the cache has.
fn loads_are_kept(
    rt: &impl Abort,
    alloc: Global,
    fs: &mut MapFs,
    cache: &mut BTreeMapCache,
) -> Result<(), AllocError> {
    assert_eq!(rt; load_told(alloc, "/p", fs, Some(cache))?.as_str(), "n 0");
    assert_eq!(rt;
        load_told(alloc, "/q", fs, Some(cache))?.as_str(),
        "Io /q 1"
    );
    assert_eq!(rt; load_told(alloc, "/p", fs, Some(cache))?.as_str(), "n 1");
    assert!(rt; cache.get("/q")?.is_none());
    assert!(rt; cache.get("/p")?.is_some());
    Ok(())
}

#[test]
fn a_cache_keeps_what_was_loaded(rt: HostRuntime) -> Result<(), Fail> {
    let mut fs = files(rt.alloc(), b"{\"name\":\"n\"}")?;
    let mut cache = BTreeMapCache::new(rt.alloc());
    loads_are_kept(&rt, rt.alloc(), &mut fs, &mut cache)?;
    Ok(())
}

#[test]
fn the_runtime_has_files(rt: HostRuntime) -> Result<(), Fail> {
    fs::write(&rt, "package.json", b"{}\xff")?;
    let mut real = RealDenoPkgJsonFs::new(&rt);
    let text = real.read_to_string_lossy(rt.alloc(), "package.json")?;
    assert_eq!(rt; text.as_str(), "{}\u{fffd}");
    let absent = real.read_to_string_lossy(rt.alloc(), "absent.json");
    assert!(rt; matches!(&absent, Err(ReadError::Fault)));
    Ok(())
}
