// Rows of calls: each is a line of text, and lines that begin with `#` say what the next ones show.
use crate::calls::{tell_call, tell_text_call};
use crate::words::tell_questions;
use indexmap::IndexMap;
use std::alloc::Global;
use std::process::Abort;
use std::test::Fail;
use sugar_path::{Text, is_clean};
use swc_loader::{NodeModulesResolver, TargetEnv};
use tree_core::{MemoryTree, PutError, Recorder};

// Each row of a table comes to what it says behind ` = `.
pub(crate) fn rows_come(rt: &impl Abort, alloc: Global, rows: &str) -> Result<(), Fail> {
    for line in rows.lines() {
        if !line.starts_with('#') {
            let (given, wanted) = line.split_once(" = ").ok_or("no answer")?;
            let told = told(alloc, given)?;
            assert_eq!(rt; told.as_str(), wanted, "{given}");
        }
    }
    Ok(())
}

// A call: by a resolver of which settings and alias it is made, and over which files.
#[derive(Clone, Copy)]
struct Row<'a> {
    settings: &'a str,
    alias: &'a str,
    files: &'a str,
    call: &'a str,
}

// A call that is written as `SETTINGS | ALIAS | FILES | CALL`.
fn row_of(given: &str) -> Option<Row<'_>> {
    let (settings, behind) = given.split_once(" | ")?;
    let (alias, behind) = behind.split_once(" | ")?;
    let (files, call) = behind.split_once(" | ")?;
    Some(Row {
        settings,
        alias,
        files,
        call,
    })
}

// What a row comes to. One that is a call alone takes a text, without a resolver and files.
fn told(alloc: Global, given: &str) -> Result<String, Fail> {
    let mut out = String::new(alloc);
    match row_of(given) {
        Some(row) => tell_row(alloc, &mut out, row)?,
        None => tell_text_call(alloc, &mut out, given)?,
    }
    Ok(out)
}

fn tell_row(alloc: Global, out: &mut String, row: Row<'_>) -> Result<(), Fail> {
    let mut tree = tree_of(alloc, files_of(row.files))?;
    let resolver = resolver_of(alloc, row.settings, row.alias)?;
    tell_over(alloc, out, &resolver, &mut tree, row.call)
}

// Tells what a call over a tree comes to, and its questions.
fn tell_over(
    alloc: Global,
    out: &mut String,
    resolver: &NodeModulesResolver,
    tree: &mut MemoryTree,
    call: &str,
) -> Result<(), Fail> {
    let mut recorder = Recorder::new(alloc, tree);
    tell_call(alloc, out, resolver, &mut recorder, call)?;
    Ok(tell_questions(out, recorder.trail())?)
}

// The files that a row names; `project` names those below.
fn files_of(files: &str) -> &str {
    if files == "project" { project() } else { files }
}

// The files of a project in `/w`, in which one has another canonical name.
fn project() -> &'static str {
    r#"/w/main.js;
/w/both.js;
/w/both/index.ts;
/w/lib/part.ts->/real/part.ts;
/w/lib/index.js;
/w/lib/node_modules/near/index.tsx;
/w/pkg/package.json {"module": "./m", "main": "./n"};
/w/pkg/m.ts;
/w/pkg/n.js;
/w/bad/package.json {;
/w/bad/index.js;
/w/odd/package.json {"main": 1};
/w/node_modules/q/package.json {"main": "lib"};
/w/node_modules/q/lib/package.json {"main": "other"};
/w/node_modules/q/lib/index.js;
/w/node_modules/broken/package.json [];
/node_modules/broken/index.js;
/w/node_modules/@s/x/y.js"#
}

// A tree with these files, apart by `;`.
pub(crate) fn tree_of(alloc: Global, files: &str) -> Result<MemoryTree, PutError> {
    let mut tree = MemoryTree::new(alloc);
    for file in files.split(';') {
        put_file(alloc, &mut tree, file.trim())?;
    }
    Ok(tree)
}

// Puts a file: its path, behind `->` its canonical name where that is another, and behind a blank its content. A `~` in
// front of the content stands for a byte order mark.
fn put_file(alloc: Global, tree: &mut MemoryTree, file: &str) -> Result<(), PutError> {
    if file.is_empty() {
        return Ok(());
    }
    let (names, content) = file.split_once(' ').unwrap_or((file, ""));
    let (path, canonical) = names.split_once("->").unwrap_or((names, names));
    if let Some(behind) = content.strip_prefix('~') {
        return put_marked(alloc, tree, path, behind, canonical);
    }
    tree.put(path, content.as_bytes(), canonical)
}

// A resolver in `/w`: for a browser or for Node, where links are preserved, or without `node_modules`.
fn resolver_of(alloc: Global, settings: &str, alias: &str) -> Result<NodeModulesResolver, Fail> {
    let cwd = Text::of(alloc, "/w")?;
    if !is_clean(cwd.as_str()) {
        return Err(Fail::from("a clean working folder"));
    }
    let alias = aliases_of(alloc, alias)?;
    let target = target_of(settings);
    let preserve_symlinks = settings.ends_with("-links");
    Ok(if settings.ends_with("-alone") {
        NodeModulesResolver::without_node_modules(cwd, target, alias, preserve_symlinks)
    } else {
        NodeModulesResolver::new(cwd, target, alias, preserve_symlinks)
    })
}

fn target_of(settings: &str) -> TargetEnv {
    if settings.starts_with("browser") {
        TargetEnv::Browser
    } else {
        TargetEnv::Node
    }
}

// One alias or none: a specifier and its target, with a colon between.
fn aliases_of(alloc: Global, alias: &str) -> Result<IndexMap<Text, Text>, Fail> {
    let mut aliases = IndexMap::new(alloc);
    if let Some((specifier, target)) = alias.split_once(':') {
        aliases.insert(Text::of(alloc, specifier)?, Text::of(alloc, target)?)?;
    }
    Ok(aliases)
}

// Puts a file with a byte order mark in front of its content.
fn put_marked(
    alloc: Global,
    tree: &mut MemoryTree,
    path: &str,
    content: &str,
    canonical: &str,
) -> Result<(), PutError> {
    let mut marked = String::from_str(alloc, "\u{FEFF}")?;
    marked.push_str(content)?;
    tree.put(path, marked.as_str().as_bytes(), canonical)
}
