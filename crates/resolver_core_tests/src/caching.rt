// A resolver that keeps answers: what it answers, and what it asks the inner one.
use crate::table::{ask, base_of, table_of, told};
use indexmap::IndexMap;
use resolver_core::{CachingResolver, DEFAULT_CAP, Resolve};
use std::alloc::Global;
use std::test::Fail;
use sugar_path::{Text, is_clean};
use swc_loader::{NodeModulesResolver, TargetEnv};
use tree_core::{MemoryTree, Recorder};

// Requests one after the other to a resolver that keeps two answers.
const REQUESTS: [&str; 8] = ["a", "b", "a", "c", "a", "b", "d", "d"];

// What each request comes to.
fn answers<R: Resolve>(alloc: Global, resolver: &mut R) -> Result<String, Fail>
where
    R::Refusal: Drop,
{
    let mut text = String::new(alloc);
    for specifier in REQUESTS {
        text.push_str(" ")?;
        match ask(alloc, resolver, "", specifier)? {
            Ok(answer) => text.push_str(told(alloc, &answer)?.as_str())?,
            Err(_) => text.push_str("refused")?,
        }
    }
    Ok(text)
}

// A kept answer asks nothing and moves to the front; a third one pushes out the last; a refusal isn't kept.
#[test]
fn the_latest_answers_are_kept(rt: HostRuntime) -> Result<(), Fail> {
    let alloc = rt.alloc();
    let mut inner = table_of(alloc, "a:1 b:2 c:3")?;
    let text = match CachingResolver::new(alloc, 2, &mut inner) {
        Ok(mut resolver) => answers(alloc, &mut resolver)?,
        Err(_) => return Err(Fail::from("no memory")),
    };
    assert_eq!(rt;
        text.as_str(),
        " custom 1 custom 2 custom 1 custom 3 custom 1 custom 2 refused refused"
    );
    assert_eq!(rt; inner.noted.as_str(), " ->a ->b ->c ->b ->d ->d");
    Ok(())
}

// How many questions a request puts.
fn questions<R: Resolve>(
    alloc: Global,
    resolver: &mut R,
    tree: &mut MemoryTree,
) -> Result<usize, Fail>
where
    R::Refusal: Drop,
{
    let mut recorder = Recorder::new(alloc, tree);
    let base = base_of(alloc, "/w/main.js")?;
    match resolver.resolve(alloc, &mut recorder, &base, "./part") {
        Ok(_) => Ok(recorder.trail().len()),
        Err(_) => Err(Fail::from("refused")),
    }
}

// One request twice, over the search for Node's modules in a box.
#[test]
fn a_kept_answer_asks_nothing(rt: HostRuntime) -> Result<(), Fail> {
    let alloc = rt.alloc();
    let cwd = Text::of(alloc, "/w")?;
    assert!(rt; is_clean(cwd.as_str()));
    let node = NodeModulesResolver::new(cwd, TargetEnv::Node, IndexMap::new(alloc), false);
    let inner = Box::new(alloc, node)?;
    let mut tree = MemoryTree::new(alloc);
    tree.put("/w/main.js", b"", "/w/main.js")?;
    tree.put("/w/part.js", b"", "/w/part.js")?;
    match CachingResolver::new(alloc, DEFAULT_CAP, inner) {
        Ok(mut resolver) => {
            assert!(rt; resolver.is_empty());
            assert_eq!(rt; questions(alloc, &mut resolver, &mut tree)?, 3);
            assert_eq!(rt; questions(alloc, &mut resolver, &mut tree)?, 0);
            assert_eq!(rt; resolver.len(), 1);
            Ok(())
        }
        Err(_) => Err(Fail::from("no memory")),
    }
}
