// Requests of small projects, and what they come to.
use indexmap::IndexMap;
use resolve_stack::{
    FileName, ImportError, JoinRefusal, Outcome, Project, ProjectError, Settings, TargetEnv,
    TsRefusal, TsSettings, TsVersion, Verdict, resolve_import,
};
use std::alloc::{AllocError, Global};
use std::test::Fail;
use sugar_path::{List, Text};
use tree_core::{MemoryTree, Tree};

/// Settings in `/w` for a target, without aliases and without a lock.
pub fn settings(
    alloc: Global,
    target: TargetEnv,
    ts: Option<TsSettings>,
) -> Result<Settings<'static>, AllocError> {
    Ok(Settings {
        cwd: Text::of(alloc, "/w")?,
        target,
        preserve_symlinks: false,
        node_modules: true,
        alias: IndexMap::new(alloc),
        ts,
        lock: None,
        conditions: None,
    })
}

/// A project in `/w` for Node.
pub fn node_project(alloc: Global) -> Result<Project<'static>, ProjectError> {
    Project::new(alloc, settings(alloc, TargetEnv::Node, None)?)
}

/// A mapping from `/w`, without patterns yet.
pub fn no_patterns(alloc: Global) -> Result<TsSettings, AllocError> {
    Ok(TsSettings {
        base_url: Text::of(alloc, "/w")?,
        paths: List::new(alloc),
        version: TsVersion::V1,
    })
}

/// How a request ends, or nothing where the tree refused a question.
pub fn outcome_of<T: Tree>(
    alloc: Global,
    tree: &mut T,
    project: &Project<'_>,
    from: &str,
    specifier: &str,
) -> Result<Option<Outcome>, AllocError> {
    let importer = FileName::Real(Text::of(alloc, from)?);
    match resolve_import(alloc, tree, project, &importer, specifier) {
        Ok(outcome) => Ok(Some(outcome)),
        Err(ImportError::TreeFault) => Ok(None),
        Err(ImportError::NoMemory) => Err(AllocError),
    }
}

/// A verdict in a line: the answer's name; the cause of a manifest; or the refusal's text.
pub fn told(alloc: Global, verdict: &Verdict) -> Result<String, AllocError> {
    match verdict {
        Verdict::Answered(resolution) => told_name(alloc, &resolution.filename),
        Verdict::Refused(TsRefusal::Inner(JoinRefusal::FailedManifestHydration { cause, .. })) =>
            format!(in alloc; "{cause:?}"),
        Verdict::Refused(TsRefusal::Inner(refusal)) => format!(in alloc; "{refusal}"),
        Verdict::Refused(refusal) => format!(in alloc; "{refusal}"),
    }
}

fn told_name(alloc: Global, name: &FileName) -> Result<String, AllocError> {
    match name {
        FileName::Real(path) => format!(in alloc; "real {path}"),
        FileName::Custom(name) => format!(in alloc; "custom {name}"),
        FileName::Anon => String::from_str(alloc, "nothing"),
    }
}

/// What a request comes to on a tree in memory.
pub fn came(
    alloc: Global,
    tree: &mut MemoryTree,
    project: &Project<'_>,
    from: &str,
    specifier: &str,
) -> Result<String, AllocError> {
    match outcome_of(alloc, tree, project, from, specifier)? {
        Some(outcome) => told(alloc, &outcome.verdict),
        None => String::from_str(alloc, "a fault"),
    }
}

/// What a request of a project for Node comes to.
pub fn came_for_node(
    alloc: Global,
    tree: &mut MemoryTree,
    from: &str,
    specifier: &str,
) -> Result<String, Fail> {
    let project = node_project(alloc)?;
    Ok(came(alloc, tree, &project, from, specifier)?)
}

/// A tree of files, a line each: a path, and the content behind a blank.
pub fn tree_of(alloc: Global, files: &str) -> Result<MemoryTree, Fail> {
    let mut tree = MemoryTree::new(alloc);
    for file in files.lines() {
        let (path, content) = file.split_once(' ').unwrap_or((file, ""));
        put(&mut tree, path, content)?;
    }
    Ok(tree)
}

/// Puts a file, whose canonical name is its path.
pub fn put(tree: &mut MemoryTree, path: &str, content: &str) -> Result<(), Fail> {
    Ok(tree.put(path, content.as_bytes(), path)?)
}

/// A text a number of times.
pub fn repeated(alloc: Global, text: &str, times: u32) -> Result<String, AllocError> {
    let mut all = String::new(alloc);
    for _ in 0..times {
        all.push_str(text)?;
    }
    Ok(all)
}
