// A specifier of an importer, resolved over a tree in memory.
use indexmap::IndexMap;
use std::alloc::{AllocError, Global};
use std::process::Abort;
use std::test::Fail;
use sugar_path::{Text, is_clean};
use swc_loader::{FileName, NodeModulesResolver, TargetEnv};
use tree_core::{MemoryTree, PutError, Recorder};

fn files(alloc: Global) -> Result<MemoryTree, PutError> {
    let mut tree = MemoryTree::new(alloc);
    tree.put("/w/main.js", b"", "/w/main.js")?;
    tree.put("/w/lib/part.ts", b"", "/w/lib/part.ts")?;
    Ok(tree)
}

fn resolver(rt: &impl Abort, alloc: Global) -> Result<NodeModulesResolver, AllocError> {
    let cwd = Text::of(alloc, "/w")?;
    assert!(rt; is_clean(cwd.as_str()));
    let alias = IndexMap::new(alloc);
    Ok(NodeModulesResolver::new(cwd, TargetEnv::Node, alias, false))
}

#[test]
fn a_specifier_is_resolved(rt: HostRuntime) -> Result<(), Fail> {
    let base = FileName::Real(Text::of(rt.alloc(), "main.js")?);
    let resolver = resolver(&rt, rt.alloc())?;
    let mut tree = files(rt.alloc())?;
    let mut recorder = Recorder::new(rt.alloc(), &mut tree);
    let answer = resolver.node_order(rt.alloc(), &mut recorder, &base, "./lib/part")?;
    let file = match &answer.found {
        Some(found) => found.file.as_str(),
        None => "no file",
    };
    assert_eq!(rt; file, "/w/lib/part.ts");
    Ok(())
}
