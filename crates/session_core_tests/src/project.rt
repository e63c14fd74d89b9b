// Projects, requests and files for the tests.
use indexmap::IndexMap;
use resolve_stack::{FileName, Project, Settings, TargetEnv, TsSettings, TsVersion};
use session_core::{Keys, Session};
use std::alloc::{AllocError, Global};
use std::test::Fail;
use sugar_path::{List, Text};

/// What decides requests besides `node_modules`.
#[derive(Clone, Copy, Debug)]
pub(crate) enum Kind {
    Plain,
    Manifest,
    BrowserMap,
    Mapping,
    Lock,
}

/// A project of a kind in the folder `/w`.
pub(crate) fn project_of(alloc: Global, kind: Kind) -> Result<Project<'static>, Fail> {
    Ok(Project::new(alloc, settings_of(alloc, kind)?)?)
}

fn settings_of(alloc: Global, kind: Kind) -> Result<Settings<'static>, AllocError> {
    let cwd = Text::of(alloc, "/w")?;
    let ts = mapping_of(alloc, kind)?;
    Ok(Settings {
        cwd,
        target: target_of(kind),
        preserve_symlinks: false,
        node_modules: true,
        alias: IndexMap::new(alloc),
        ts,
        lock: lock_of(kind),
        conditions: None,
    })
}

fn target_of(kind: Kind) -> TargetEnv {
    match kind {
        Kind::BrowserMap => TargetEnv::Browser,
        _ => TargetEnv::Node,
    }
}

fn mapping_of(alloc: Global, kind: Kind) -> Result<Option<TsSettings>, AllocError> {
    let Kind::Mapping = kind else {
        return Ok(None);
    };
    let base_url = Text::of(alloc, "/w")?;
    let paths = paths_of(alloc)?;
    let version = TsVersion::V1;
    Ok(Some(TsSettings {
        base_url,
        paths,
        version,
    }))
}

// `@app` lies in two folders.
fn paths_of(alloc: Global) -> Result<List<(Text, List<Text>)>, AllocError> {
    let pattern = Text::of(alloc, "@app/*")?;
    let targets = targets_of(alloc)?;
    Ok(List::from(vec![in alloc; (pattern, targets)]?))
}

fn targets_of(alloc: Global) -> Result<List<Text>, AllocError> {
    let part = Text::of(alloc, "part/*")?;
    let lib = Text::of(alloc, "lib/*")?;
    Ok(List::from(vec![in alloc; part, lib]?))
}

// The lock has the package that the manifest binds, at the range that its package.json gives.
fn lock_of(kind: Kind) -> Option<&'static str> {
    match kind {
        Kind::Lock => Some("# a\n# yarn lockfile v1\n\n\nfoo@^1.0.0:\n  version \"1.0.0\"\n"),
        _ => None,
    }
}

/// The importer of the tests.
pub(crate) fn importer(alloc: Global) -> Result<FileName, AllocError> {
    Ok(FileName::Real(Text::of(alloc, "/w/a.js")?))
}

/// `/` as an importer.
pub(crate) fn root(alloc: Global) -> Result<FileName, AllocError> {
    Ok(FileName::Real(Text::of(alloc, "/")?))
}

/// What a file holds that the tests put.
pub(crate) fn text_of(kind: Kind, path: &str) -> &'static str {
    if path.ends_with(".cjs") {
        return manifest();
    }
    if path != "/w/package.json" {
        return "";
    }
    match kind {
        Kind::BrowserMap => r#"{"browser":{"fs":false,"bar":"./part","./part":"foo"}}"#,
        _ => r#"{"dependencies":{"foo":"^1.0.0"}}"#,
    }
}

// A manifest whose top-level package binds `foo`.
fn manifest() -> &'static str {
    r#"const RAW_RUNTIME_STATE =
'{"dependencyTreeRoots":[],"enableTopLevelFallback":false,"ignorePatternData":null,"fallbackExclusionList":[],"fallbackPool":[],"packageRegistryData":[[null,[[null,{"packageLocation":"./","packageDependencies":[["foo","npm:1.0.0"]]}]]],["foo",[["npm:1.0.0",{"packageLocation":"./lib/foo/","packageDependencies":[]}]]]]}';
"#
}

/// A session on a project with a manifest, which keeps two outcomes.
pub(crate) fn session_of_two(alloc: Global) -> Result<Session<'static>, Fail> {
    let mut session = Session::new(alloc, project_of(alloc, Kind::Manifest)?, 2)?;
    for path in "/w/a.js /w/.pnp.cjs /w/lib/foo/index.js".split_whitespace() {
        session.put(path, text_of(Kind::Manifest, path).as_bytes(), path)?;
    }
    Ok(session)
}

/// Whether a session keeps the requests of some specifiers, the most recently used first. It takes no memory.
pub(crate) fn keys_are(keys: Keys<'_>, specifiers: &str) -> bool {
    let mut count: usize = 0;
    for specifier in specifiers.split_whitespace() {
        if !is_key(keys, count, specifier) {
            return false;
        }
        count = count.wrapping_add(1);
    }
    keys.len() == count
}

fn is_key(keys: Keys<'_>, i: usize, specifier: &str) -> bool {
    match keys.get(i) {
        Some((_, kept)) => kept == specifier,
        None => false,
    }
}
