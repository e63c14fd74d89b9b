// Projects for the tests.
ghost use Rattle.std.specs.Prelude.{◌<◌};

use import_graph::{GraphSession, LineScan, Scan};
use indexmap::IndexMap;
use resolve_stack::{Project, Settings, TargetEnv, TsSettings, TsVersion};
use std::alloc::{AllocError, Global};
use std::test::Fail;
use sugar_path::{List, Text};

/// What decides requests besides `node_modules`.
#[derive(Clone, Copy, Debug)]
pub(crate) enum Kind {
    Plain,
    Manifest,
    Mapping,
}

/// A project of a kind in the folder `/w`.
pub(crate) fn project_of(alloc: Global, kind: Kind) -> Result<Project<'static>, Fail> {
    Ok(Project::new(alloc, settings_of(alloc, kind)?)?)
}

fn settings_of(alloc: Global, kind: Kind) -> Result<Settings<'static>, AllocError> {
    let cwd = Text::of(alloc, "/w")?;
    let ts = mapping_of(alloc, kind)?;
    Ok(Settings {
        cwd,
        target: TargetEnv::Node,
        preserve_symlinks: false,
        node_modules: true,
        alias: IndexMap::new(alloc),
        ts,
        lock: None,
        conditions: None,
    })
}

// `@app` lies in a folder.
fn mapping_of(alloc: Global, kind: Kind) -> Result<Option<TsSettings>, AllocError> {
    let Kind::Mapping = kind else {
        return Ok(None);
    };
    let base_url = Text::of(alloc, "/w")?;
    let pattern = Text::of(alloc, "@app/*")?;
    let target = Text::of(alloc, "part/*")?;
    let targets = List::from(vec![in alloc; target]?);
    Ok(Some(TsSettings {
        base_url,
        paths: List::from(vec![in alloc; (pattern, targets)]?),
        version: TsVersion::V1,
    }))
}

/// A session on such a project, with room for a number of outcomes, and with entries that are parted by blanks.
pub(crate) fn session_of(
    alloc: Global,
    kind: Kind,
    capacity: usize,
    entries: &str,
) -> Result<GraphSession<'static, LineScan>, Fail>
    requires { 0 < capacity }
{
    scanned_session(alloc, kind, capacity, LineScan, entries)
}

/// Such a session with a scanner.
pub(crate) fn scanned_session<S: Scan + Drop>(
    alloc: Global,
    kind: Kind,
    capacity: usize,
    scanner: S,
    entries: &str,
) -> Result<GraphSession<'static, S>, Fail>
    requires { 0 < capacity }
{
    let project = project_of(alloc, kind)?;
    let entries = texts_of(alloc, entries)?;
    Ok(GraphSession::new(alloc, project, capacity, scanner, entries)?)
}

/// Texts, parted by blanks.
pub(crate) fn texts_of(alloc: Global, words: &str) -> Result<List<Text>, AllocError> {
    let mut texts = Vec::new(alloc);
    for word in words.split_whitespace() {
        texts.push(Text::of(alloc, word)?)?;
    }
    Ok(List::from(texts))
}

/// A manifest whose top-level package binds `foo`.
pub(crate) fn manifest() -> &'static str {
    r#"const RAW_RUNTIME_STATE =
'{"dependencyTreeRoots":[],"enableTopLevelFallback":false,"ignorePatternData":null,"fallbackExclusionList":[],"fallbackPool":[],"packageRegistryData":[[null,[[null,{"packageLocation":"./","packageDependencies":[["foo","npm:1.0.0"]]}]]],["foo",[["npm:1.0.0",{"packageLocation":"./lib/foo/","packageDependencies":[]}]]]]}';
"#
}
