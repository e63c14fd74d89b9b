// Trees that refuse one question of a request: there is no verdict then, and the same call made again has the answer.
use crate::requests::{node_project, outcome_of, settings, told, tree_of};
use resolve_stack::{Project, TargetEnv, TsSettings, TsVersion};
use std::alloc::{AllocError, Global};
use std::process::Abort;
use std::test::Fail;
use sugar_path::{List, Text};
use tree_core::{FailingTree, MemoryTree, Tree};

// A request from `/w/a.js`, and what it comes to.
#[derive(Clone, Copy)]
struct Asked<'a> {
    specifier: &'a str,
    answer: &'a str,
}

// Whether a request has its answer, or nothing where the tree refused a question.
fn is_answered(
    alloc: Global,
    tree: &mut FailingTree,
    project: &Project<'_>,
    asked: Asked<'_>,
) -> Result<Option<bool>, AllocError> {
    match outcome_of(alloc, tree, project, "/w/a.js", asked.specifier)? {
        Some(outcome) => Ok(Some(told(alloc, &outcome.verdict)?.as_str() == asked.answer)),
        None => Ok(None),
    }
}

// Whether a tree refuses its question of a number, which ends the request there; made again it has its answer.
fn is_refused(
    rt: &impl Abort,
    alloc: Global,
    tree: &mut FailingTree,
    project: &Project<'_>,
    asked: Asked<'_>,
    number: u64,
) -> Result<bool, AllocError> {
    if is_answered(alloc, tree, project, asked)?.is_some() {
        assert_eq!(rt; tree.faults(), 0, "at {number}");
        return Ok(false);
    }
    assert_eq!(rt; (tree.questions(), tree.faults()), (number, 1));
    assert_eq!(rt;
        is_answered(alloc, tree, project, asked)?,
        Some(true),
        "at {number}"
    );
    Ok(true)
}

// A tree that fails at its question of a number.
fn failing_at(alloc: Global, tree: MemoryTree, number: u64) -> Result<FailingTree, AllocError> {
    Ok(tree.fail_at(List::from(vec![in alloc; number]?)))
}

// How many questions a request takes: each is refused in turn, and one more isn't put.
fn refusals(
    rt: &impl Abort,
    alloc: Global,
    files: &str,
    project: &Project<'_>,
    asked: Asked<'_>,
) -> Result<u64, Fail> {
    for number in 1..100u64 {
        let mut tree = failing_at(alloc, tree_of(alloc, files)?, number)?;
        if !is_refused(rt, alloc, &mut tree, project, asked, number)? {
            return Ok(number - 1);
        }
    }
    Ok(99)
}

// A package lies far up, behind one that is malformed.
#[test]
fn a_walk_fails_at_each_question(rt: HostRuntime) -> Result<(), Fail> {
    let files = "/w/a.js
/w/node_modules/q/package.json {
/node_modules/q/index.js";
    let asked = Asked {
        specifier: "q",
        answer: "real /node_modules/q/index.js",
    };
    let project = node_project(rt.alloc())?;
    assert_eq!(rt; refusals(&rt, rt.alloc(), files, &project, asked)?, 36);
    Ok(())
}

// A manifest whose top-level package binds `foo`.
pub fn manifest() -> &'static str {
    "const RAW_RUNTIME_STATE = '{\"dependencyTreeRoots\":[],\"enableTopLevelFallback\":true,\"ignorePatternData\":null,\"fallbackExclusionList\":[],\"fallbackPool\":[],\"packageRegistryData\":[[null,[[null,{\"packageLocation\":\"./\",\"packageDependencies\":[[\"foo\",\"npm:1.0.0\"]]}]]],[\"foo\",[[\"npm:1.0.0\",{\"packageLocation\":\"./.yarn/foo/\",\"packageDependencies\":[]}]]]]}';"
}

fn lock() -> &'static str {
    "# a\n# b\n\n__metadata:\n  version: 6\n\n\"foo@npm:^1.0.0\":\n  version: 1.0.0\n  resolution: \"foo@npm:1.0.0\"\n"
}

fn its_mapping(alloc: Global) -> Result<TsSettings, AllocError> {
    let target = Text::of(alloc, "foo")?;
    let targets = List::from(vec![in alloc; target]?);
    let path = (Text::of(alloc, "x/*")?, targets);
    Ok(TsSettings {
        base_url: Text::of(alloc, "/w")?,
        paths: List::from(vec![in alloc; path]?),
        version: TsVersion::V2,
    })
}

fn its_project(alloc: Global) -> Result<Project<'static>, Fail> {
    let ts = its_mapping(alloc)?;
    let mut settings = settings(alloc, TargetEnv::Browser, Some(ts))?;
    settings.lock = Some(lock());
    Ok(Project::new(alloc, settings)?)
}

// Its files, the manifest among them.
fn its_files(alloc: Global) -> Result<String, AllocError> {
    let others = r#"/w/a.js
/w/package.json {"dependencies":{"foo":"^1.0.0"}}
/w/.yarn/foo/package.json {"main":"m.js","browser":{"./m.js":"./b.js"}}
/w/.yarn/foo/m.js
/w/.yarn/foo/b.js"#;
    format!(in alloc; "/w/.pnp.cjs {}\n{others}", manifest())
}

// A manifest, a lock, a mapping and rules for browsers have a part in this one.
#[test]
fn everything_fails_at_each_question(rt: HostRuntime) -> Result<(), Fail> {
    let files = its_files(rt.alloc())?;
    let asked = Asked {
        specifier: "x/y",
        answer: "real /w/.yarn/foo/b.js",
    };
    let project = its_project(rt.alloc())?;
    let count = refusals(&rt, rt.alloc(), files.as_str(), &project, asked)?;
    assert!(rt; count > 10, "{count}");
    Ok(())
}
