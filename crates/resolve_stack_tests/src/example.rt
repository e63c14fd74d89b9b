// A request of a project over a tree in memory: its verdict, and the questions that decided it.
use indexmap::IndexMap;
use resolve_stack::{FileName, Project, Settings, TargetEnv, Verdict, resolve_import};
use std::test::Fail;
use sugar_path::Text;
use tree_core::MemoryTree;

#[test]
fn a_request_is_answered(rt: HostRuntime) -> Result<(), Fail> {
    let mut tree = MemoryTree::new(rt.alloc());
    tree.put("/shop/main.js", b"", "/shop/main.js")?;
    let settings = Settings {
        cwd: Text::of(rt.alloc(), "/shop")?,
        target: TargetEnv::Node,
        preserve_symlinks: false,
        node_modules: true,
        alias: IndexMap::new(rt.alloc()),
        ts: None,
        lock: None,
        conditions: None,
    };
    let project = Project::new(rt.alloc(), settings)?;
    let importer = FileName::Real(Text::of(rt.alloc(), "/shop/main.js")?);
    let outcome = resolve_import(rt.alloc(), &mut tree, &project, &importer, "path")?;
    assert!(rt; matches!(outcome.verdict, Verdict::Answered(_)));
    assert!(rt; outcome.trail.len() > 0);
    Ok(())
}
