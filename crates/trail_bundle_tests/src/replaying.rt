// Requests that are replayed from bundles.
use indexmap::IndexMap;
use resolve_stack::{
    FileName, Outcome, Project, ProjectError, Settings, TargetEnv, Verdict, resolve_import,
};
use std::alloc::{AllocError, Global};
use std::test::Fail;
use sugar_path::Text;
use trail_bundle::{Bundle, BundleError, BundleReplayError};
use tree_core::{MemoryTree, Question};

// A project for Node in `/w`.
fn project_of(alloc: Global) -> Result<Project<'static>, ProjectError> {
    Project::new(
        alloc,
        Settings {
            cwd: Text::of(alloc, "/w")?,
            target: TargetEnv::Node,
            preserve_symlinks: false,
            node_modules: true,
            alias: IndexMap::new(alloc),
            ts: None,
            lock: None,
            conditions: None,
        },
    )
}

fn importer(alloc: Global) -> Result<FileName, AllocError> {
    Ok(FileName::Real(Text::of(alloc, "/w/a.js")?))
}

// What `./q` comes to where these files are there, and nothing stands in them.
fn outcome_of(alloc: Global, project: &Project<'_>, files: &[&str]) -> Result<Outcome, Fail> {
    let mut tree = MemoryTree::new(alloc);
    for path in files {
        tree.put(path, b"", path)?;
    }
    let importer = importer(alloc)?;
    Ok(resolve_import(alloc, &mut tree, project, &importer, "./q")?)
}

// Whether a bundle of one request gives its verdict.
fn gives(alloc: Global, project: &Project<'_>, bundle: &Bundle, verdict: &Verdict) -> bool {
    match bundle.replay_all(alloc, project) {
        Ok(verdicts) => verdicts.len() == 1 && verdicts[0] == *verdict,
        Err(_) => false,
    }
}

#[test]
fn a_request_is_replayed(rt: HostRuntime) -> Result<(), Fail> {
    let project = project_of(rt.alloc())?;
    let outcome = outcome_of(rt.alloc(), &project, &["/w/a.js", "/w/q.ts"])?;
    let mut bundle = Bundle::new(rt.alloc());
    bundle.add(&importer(rt.alloc())?, "./q", &outcome.trail)?;
    assert!(rt; gives(rt.alloc(), &project, &bundle, &outcome.verdict));
    let text = bundle.encode(rt.alloc())?;
    let read = Bundle::decode(rt.alloc(), text.as_str())?;
    assert!(rt; gives(rt.alloc(), &project, &read, &outcome.verdict));
    Ok(())
}

// The request whose question is missing, and whether that asks if a path is a file's.
fn misses(
    alloc: Global,
    project: &Project<'_>,
    text: &str,
    path: &str,
) -> Result<Option<usize>, Fail> {
    let bundle = Bundle::decode(alloc, text)?;
    match bundle.replay_all(alloc, project) {
        Err(BundleReplayError::NotRecorded { request, question }) => {
            Ok(if is_file_question(&question, path) {
                Some(request)
            } else {
                None
            })
        }
        _ => Ok(None),
    }
}

fn is_file_question(question: &Question, path: &str) -> bool {
    match question {
        Question::File(asked) => asked.as_str() == path,
        _ => false,
    }
}

#[test]
fn the_first_missing_question_is_told(rt: HostRuntime) -> Result<(), Fail> {
    let project = project_of(rt.alloc())?;
    let one = "trail-bundle 1 1 0\n{\"from\":\"/w/a.js\",\"specifier\":\"./q\"}\n";
    assert_eq!(rt; misses(rt.alloc(), &project, one, "/w/a.js")?, Some(0));
    let two = "\
trail-bundle 1 2 2\n\
{\"from\":null,\"specifier\":\"./q\"}\n\
{\"from\":\"/w/a.js\",\"specifier\":\"./q\"}\n\
[\"file\",\"/w/a.js\",true]\n\
[\"file\",\"/w/q\",false]\n";
    assert_eq!(rt; misses(rt.alloc(), &project, two, "/w/q.js")?, Some(1));
    Ok(())
}

// Whether another tree's trail of the same request is refused for a file that isn't there.
fn conflicts(alloc: Global, project: &Project<'_>, bundle: &mut Bundle) -> Result<bool, Fail> {
    let other = outcome_of(alloc, project, &["/w/a.js", "/w/q.js", "/w/q.ts"])?;
    match bundle.add(&importer(alloc)?, "./q", &other.trail) {
        Err(BundleError::Conflict { question, .. }) => Ok(is_file_question(&question, "/w/q.js")),
        _ => Ok(false),
    }
}

#[test]
fn a_conflict_leaves_the_bundle(rt: HostRuntime) -> Result<(), Fail> {
    let project = project_of(rt.alloc())?;
    let outcome = outcome_of(rt.alloc(), &project, &["/w/a.js", "/w/q.ts"])?;
    let mut bundle = Bundle::new(rt.alloc());
    bundle.add(&importer(rt.alloc())?, "./q", &outcome.trail)?;
    assert!(rt; conflicts(rt.alloc(), &project, &mut bundle)?);
    assert!(rt; gives(rt.alloc(), &project, &bundle, &outcome.verdict));
    Ok(())
}
