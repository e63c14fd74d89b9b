// Outcomes of requests, told whole.
use explain_report::explained;
use indexmap::IndexMap;
use resolve_stack::{FileName, Project, Settings, TargetEnv, resolve_import};
use std::alloc::Global;
use std::test::Fail;
use sugar_path::Text;
use tree_core::MemoryTree;

fn project(alloc: Global) -> Result<Project<'static>, Fail> {
    let settings = Settings {
        cwd: Text::of(alloc, "/w")?,
        target: TargetEnv::Node,
        preserve_symlinks: false,
        node_modules: true,
        alias: IndexMap::new(alloc),
        ts: None,
        lock: None,
        conditions: None,
    };
    Ok(Project::new(alloc, settings)?)
}

// The text on a request from `/w/a.js` over a tree with two files and a package.
fn told(alloc: Global, specifier: &str) -> Result<String, Fail> {
    let mut tree = MemoryTree::new(alloc);
    tree.put("/w/a.js", b"", "/w/a.js")?;
    tree.put("/w/b.ts", b"", "/w/b.ts")?;
    tree.put(
        "/w/node_modules/foo/package.json",
        b"{\"main\":\"m.js\"}",
        "/w/node_modules/foo/package.json",
    )?;
    tree.put("/w/node_modules/foo/m.js", b"", "/real/foo/m.js")?;
    let importer = FileName::Real(Text::of(alloc, "/w/a.js")?);
    let project = project(alloc)?;
    let outcome = resolve_import(alloc, &mut tree, &project, &importer, specifier)?;
    Ok(explained(alloc, &importer, specifier, &outcome)?)
}

const RELATIVE: &str = "\
./b from /w/a.js
  file candidates
    /w/a.js: a file
    /w/b.js: no file
    /w/b: no file
    /w/b.ts: a file
  spelling
    /w/b.ts: /w/b.ts
found: /w/b.ts
";

#[test]
fn a_relative_file_is_told(rt: HostRuntime) -> Result<(), Fail> {
    assert_eq!(rt; told(rt.alloc(), "./b")?.as_str(), RELATIVE);
    Ok(())
}

// The end of the text on a request for a package: its package.json, and the file that was found.
const PACKAGE_END: &str = "
  package.json
    /w/node_modules/foo/package.json: a file
    /w/node_modules/foo/package.json: read
  file candidates
    /w/node_modules/foo/m.js: a file
  spelling
    /w/node_modules/foo/m.js: /real/foo/m.js
found: /w/node_modules/foo/m.js
";

// Its front, up to the walk's first candidate.
const PACKAGE_FRONT: &str = "\
foo from /w/a.js
  nearest manifest
    /w/a.js/.pnp.cjs: nothing
    /w/.pnp.cjs: nothing
    /.pnp.cjs: nothing
  file candidates
    /w/foo.js: no file
";

#[test]
fn a_package_is_told(rt: HostRuntime) -> Result<(), Fail> {
    let told = told(rt.alloc(), "foo")?;
    assert!(rt; told.starts_with(PACKAGE_FRONT));
    assert!(rt; told.contains("\n  walk\n    /w/node_modules: a folder\n"));
    assert!(rt; told.ends_with(PACKAGE_END));
    Ok(())
}

#[test]
fn a_builtin_is_told(rt: HostRuntime) -> Result<(), Fail> {
    let told = told(rt.alloc(), "fs")?;
    assert!(rt; told.ends_with("\nanswered: the name node:fs, without a file\n"));
    Ok(())
}
