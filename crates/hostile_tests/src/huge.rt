// Deep folders, long specifiers, and documents of many rows.
use crate::requests::{
    came, came_for_node, no_patterns, outcome_of, put, repeated, settings, told, tree_of,
};
use resolve_stack::{Outcome, Project, Settings, TargetEnv};
use std::alloc::{AllocError, Global};
use std::fmt::Write;
use std::test::Fail;
use sugar_path::{List, Text};
use tree_core::MemoryTree;

// What `q` comes to below so many folders, and how many questions that takes.
fn told_below_folders(alloc: Global, depth: u32) -> Result<String, Fail> {
    let mut from = repeated(alloc, "/d", depth)?;
    from.push_str("/a.js")?;
    told_from(alloc, from.as_str())
}

fn told_from(alloc: Global, from: &str) -> Result<String, Fail> {
    let mut tree = MemoryTree::new(alloc);
    put(&mut tree, from, "")?;
    let project = project_at_the_root(alloc)?;
    match outcome_of(alloc, &mut tree, &project, from, "q")? {
        Some(outcome) => Ok(counted(alloc, &outcome)?),
        None => Err(Fail::from("a fault")),
    }
}

fn counted(alloc: Global, outcome: &Outcome) -> Result<String, AllocError> {
    let told = told(alloc, &outcome.verdict)?;
    format!(in alloc; "{told}, by {} questions", outcome.trail.len())
}

fn project_at_the_root(alloc: Global) -> Result<Project<'static>, Fail> {
    let mut settings = settings(alloc, TargetEnv::Node, None)?;
    settings.cwd = Text::of(alloc, "/")?;
    Ok(Project::new(alloc, settings)?)
}

#[test]
fn an_importer_lies_deep(rt: HostRuntime) -> Result<(), Fail> {
    let near = told_below_folders(rt.alloc(), 500)?;
    assert_eq!(rt; near.as_str(), "nothing is found at q, by 1015 questions");
    let deep = told_below_folders(rt.alloc(), 10_000)?;
    assert_eq!(rt; deep.as_str(), "nothing is found at q, by 20015 questions");
    Ok(())
}

// Whether nothing is found at a specifier that is a part a million times.
fn is_not_found(alloc: Global, part: &str) -> Result<bool, Fail> {
    let specifier = repeated(alloc, part, 1_000_000)?;
    let mut tree = tree_of(alloc, "/w/a.js")?;
    let told = came_for_node(alloc, &mut tree, "/w/a.js", specifier.as_str())?;
    Ok(told.starts_with("nothing is found at "))
}

// A specifier of a megabyte is looked for like any other.
#[test]
fn a_specifier_is_long(rt: HostRuntime) -> Result<(), Fail> {
    for part in "a ./ ../ @/".split(' ') {
        assert!(rt; is_not_found(rt.alloc(), part)?, "of {part}");
    }
    Ok(())
}

// A manifest in which one package has so many rows, and the top level binds its last one.
fn manifest_of_rows(alloc: Global, rows: u32) -> Result<String, AllocError> {
    let last = rows.saturating_sub(1);
    let mut text = format!(in alloc;
        "const RAW_RUNTIME_STATE =\n'{{\"dependencyTreeRoots\":[],\"enableTopLevelFallback\":false,\"ignorePatternData\":null,\"fallbackExclusionList\":[],\"fallbackPool\":[],\"packageRegistryData\":[[null,[[null,{{\"packageLocation\":\"./\",\"packageDependencies\":[[\"q\",\"npm:{last}\"]]}}]]],[\"q\",["
    )?;
    for row in 0..rows {
        push_row(&mut text, row)?;
    }
    text.push_str("]]]}';\n")?;
    Ok(text)
}

fn push_row(text: &mut String, row: u32) -> Result<(), AllocError> {
    let comma = if row == 0 { "" } else { "," };
    write!(
        text,
        "{comma}[\"npm:{row}\",{{\"packageLocation\":\"./q/{row}/\",\"packageDependencies\":[]}}]"
    )
}

fn tree_of_rows(alloc: Global, rows: u32) -> Result<MemoryTree, Fail> {
    let manifest = manifest_of_rows(alloc, rows)?;
    let mut tree = tree_of(alloc, "/w/q/99999/index.js")?;
    put(&mut tree, "/w/.pnp.cjs", manifest.as_str())?;
    Ok(tree)
}

#[test]
fn a_package_has_many_rows(rt: HostRuntime) -> Result<(), Fail> {
    let mut tree = tree_of_rows(rt.alloc(), 100_000)?;
    let text = came_for_node(rt.alloc(), &mut tree, "/w/a.js", "q")?;
    assert_eq!(rt; text.as_str(), "real /w/q/99999/index.js");
    Ok(())
}

// A manifest with so many bytes in a field that nothing reads.
fn tree_of_bytes(alloc: Global, megabytes: u32) -> Result<MemoryTree, Fail> {
    let filling = repeated(alloc, "0123456789abcdef", megabytes.saturating_mul(65_536))?;
    let manifest = format!(in alloc;
        "const RAW_RUNTIME_STATE =\n'{{\"__info\":\"{filling}\",\"dependencyTreeRoots\":[],\"enableTopLevelFallback\":false,\"ignorePatternData\":null,\"fallbackExclusionList\":[],\"fallbackPool\":[],\"packageRegistryData\":[[null,[[null,{{\"packageLocation\":\"./\",\"packageDependencies\":[]}}]]]]}}';\n"
    )?;
    let mut tree = MemoryTree::new(alloc);
    put(&mut tree, "/w/.pnp.cjs", manifest.as_str())?;
    Ok(tree)
}

#[test]
fn a_manifest_is_large(rt: HostRuntime) -> Result<(), Fail> {
    let mut tree = tree_of_bytes(rt.alloc(), 60)?;
    let text = came_for_node(rt.alloc(), &mut tree, "/w/a.js", "./q")?;
    assert_eq!(rt; text.as_str(), "nothing is found at ./q");
    Ok(())
}

// Settings with so many aliases.
fn put_aliases(
    alloc: Global,
    settings: &mut Settings<'static>,
    number: u32,
) -> Result<(), AllocError> {
    for i in 0..number {
        put_alias(alloc, settings, i)?;
    }
    Ok(())
}

fn put_alias(alloc: Global, settings: &mut Settings<'static>, i: u32) -> Result<(), AllocError> {
    let alias = Text::from(format!(in alloc; "a{i}")?);
    let target = Text::from(format!(in alloc; "./f{i}")?);
    settings.alias.insert(alias, target)?;
    Ok(())
}

fn project_of_aliases(alloc: Global, number: u32) -> Result<Project<'static>, Fail> {
    let mut settings = settings(alloc, TargetEnv::Node, None)?;
    put_aliases(alloc, &mut settings, number)?;
    Ok(Project::new(alloc, settings)?)
}

fn came_by_aliases(alloc: Global, number: u32) -> Result<String, Fail> {
    let project = project_of_aliases(alloc, number)?;
    let mut tree = tree_of(alloc, "/w/a.js\n/w/f9999.js")?;
    Ok(came(alloc, &mut tree, &project, "/w/a.js", "a9999")?)
}

#[test]
fn there_are_many_aliases(rt: HostRuntime) -> Result<(), Fail> {
    let text = came_by_aliases(rt.alloc(), 10_000)?;
    assert_eq!(rt; text.as_str(), "real /w/f9999.js");
    Ok(())
}

// Patterns, each of them longer than those before: in the order of search the last one comes first.
fn patterns(alloc: Global, number: u32) -> Result<List<(Text, List<Text>)>, AllocError> {
    let mut paths = Vec::new(alloc);
    for i in 0..number {
        paths.push(pattern(alloc, i)?)?;
    }
    Ok(List::from(paths))
}

fn pattern(alloc: Global, i: u32) -> Result<(Text, List<Text>), AllocError> {
    let pattern = Text::from(format!(in alloc; "@{i:05}/*")?);
    let target = Text::from(format!(in alloc; "src/{i}/*")?);
    Ok((pattern, List::from(vec![in alloc; target]?)))
}

fn project_of_patterns(alloc: Global, number: u32) -> Result<Project<'static>, Fail> {
    let mut ts = no_patterns(alloc)?;
    ts.paths = patterns(alloc, number)?;
    Ok(Project::new(alloc, settings(alloc, TargetEnv::Node, Some(ts))?)?)
}

fn came_by_patterns(alloc: Global, number: u32) -> Result<String, Fail> {
    let project = project_of_patterns(alloc, number)?;
    let mut tree = tree_of(alloc, "/w/a.js\n/w/src/9999/x.ts")?;
    Ok(came(alloc, &mut tree, &project, "/w/a.js", "@09999/x")?)
}

#[test]
fn there_are_many_patterns(rt: HostRuntime) -> Result<(), Fail> {
    let text = came_by_patterns(rt.alloc(), 10_000)?;
    assert_eq!(rt; text.as_str(), "real /w/src/9999/x.ts");
    Ok(())
}
