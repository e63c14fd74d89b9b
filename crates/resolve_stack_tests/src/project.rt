// Projects, the files of one, and what its request comes to.
use indexmap::IndexMap;
use resolve_stack::{
    FileName, Outcome, Project, ProjectError, Resolution, Settings, TargetEnv, TsSettings,
    TsVersion, Verdict,
};
use std::alloc::{AllocError, Global};
use std::test::Fail;
use sugar_path::{List, Text};
use tree_core::MemoryTree;

/// A project for Node in `/w`, without a mapping and without a lock.
pub fn project_of(alloc: Global) -> Result<Project<'static>, ProjectError> {
    project_by(alloc, "/w", None, None)
}

/// A project for Node by its working folder, its mapping and its lock.
pub fn project_by<'l>(
    alloc: Global,
    cwd: &str,
    ts: Option<TsSettings>,
    lock: Option<&'l str>,
) -> Result<Project<'l>, ProjectError> {
    Project::new(
        alloc,
        Settings {
            cwd: Text::of(alloc, cwd)?,
            target: TargetEnv::Node,
            preserve_symlinks: false,
            node_modules: true,
            alias: IndexMap::new(alloc),
            ts,
            lock,
            conditions: None,
        },
    )
}

/// A mapping's settings, the patterns as `pattern:target,target;pattern:target`.
pub fn ts_of(alloc: Global, base_url: &str, paths: &str) -> Result<TsSettings, AllocError> {
    Ok(TsSettings {
        base_url: Text::of(alloc, base_url)?,
        paths: paths_of(alloc, paths)?,
        version: TsVersion::V1,
    })
}

fn paths_of(alloc: Global, paths: &str) -> Result<List<(Text, List<Text>)>, AllocError> {
    let mut all = Vec::new(alloc);
    for path in paths.split_terminator(';') {
        all.push(path_of(alloc, path)?)?;
    }
    Ok(List::from(all))
}

fn path_of(alloc: Global, path: &str) -> Result<(Text, List<Text>), AllocError> {
    let (pattern, targets) = path.split_once(':').unwrap_or((path, ""));
    Ok((Text::of(alloc, pattern)?, targets_of(alloc, targets)?))
}

fn targets_of(alloc: Global, targets: &str) -> Result<List<Text>, AllocError> {
    let mut texts = Vec::new(alloc);
    for target in targets.split_terminator(',') {
        texts.push(Text::of(alloc, target)?)?;
    }
    Ok(List::from(texts))
}

/// A manifest whose top-level package binds `foo` to the package in the folder of this name beside it.
pub fn manifest(alloc: Global, package: &str) -> Result<String, AllocError> {
    let front = r#"const RAW_RUNTIME_STATE =
'{"dependencyTreeRoots":[],"enableTopLevelFallback":false,"ignorePatternData":null,"fallbackExclusionList":[],"fallbackPool":[],"packageRegistryData":[[null,[[null,{"packageLocation":"./","packageDependencies":[["foo","npm:1.0.0"]]}]]],["foo",[["npm:1.0.0",{"packageLocation":"./"#;
    let back = r#"/","packageDependencies":[]}]]]]}';
"#;
    format!(in alloc; "{front}{package}{back}")
}

/// Puts a project into a tree: its manifest, which binds `foo` to this package, and the packages `one` and `two`.
pub fn put_project(
    alloc: Global,
    tree: &mut MemoryTree,
    folder: &str,
    package: &str,
) -> Result<(), Fail> {
    let manifest = manifest(alloc, package)?;
    put(alloc, tree, folder, "/.pnp.cjs", manifest.as_str())?;
    put(alloc, tree, folder, "/one/index.js", "")?;
    put(alloc, tree, folder, "/two/index.js", "")
}

fn put(
    alloc: Global,
    tree: &mut MemoryTree,
    folder: &str,
    file: &str,
    content: &str,
) -> Result<(), Fail> {
    let path = format!(in alloc; "{folder}{file}")?;
    Ok(tree.put(path.as_str(), content.as_bytes(), path.as_str())?)
}

/// A tree of the project in `/w`, which binds `foo` to `one`.
pub fn tree_of(alloc: Global) -> Result<MemoryTree, Fail> {
    let mut tree = MemoryTree::new(alloc);
    put_project(alloc, &mut tree, "/w", "one")?;
    Ok(tree)
}

/// The importer of the project in `/w`.
pub fn importer(alloc: Global) -> Result<FileName, AllocError> {
    Ok(FileName::Real(Text::of(alloc, "/w/a.js")?))
}

/// The file that an outcome found, or the empty text.
pub fn found(outcome: &Outcome) -> &str {
    match &outcome.verdict {
        Verdict::Answered(answer) => file_of(answer),
        Verdict::Refused(_) => "",
    }
}

/// The file of an answer, or the empty text.
pub fn file_of(answer: &Resolution) -> &str {
    match &answer.found {
        Some(found) => found.file.as_str(),
        None => "",
    }
}
