// Replays of a trail, and the tree that answers from one.
use crate::project::{importer, project_of, tree_of};
use replay_core::ReplayTree;
use resolve_stack::{Outcome, Project, ReplayError, Verdict, replay, resolve_import};
use std::alloc::{AllocError, Global};
use std::test::Fail;
use sugar_path::{Text, is_clean};
use tree_core::{Question, Reply, Trail, Tree};

fn outcome_of(alloc: Global, project: &Project<'_>) -> Result<Outcome, Fail> {
    let mut tree = tree_of(alloc)?;
    let importer = importer(alloc)?;
    Ok(resolve_import(alloc, &mut tree, project, &importer, "foo")?)
}

fn replayed(
    alloc: Global,
    project: &Project<'_>,
    trail: &Trail,
) -> Result<Result<Verdict, ReplayError>, AllocError> {
    let importer = importer(alloc)?;
    Ok(replay(alloc, project, &importer, "foo", trail))
}

fn gives_again(alloc: Global, project: &Project<'_>) -> Result<bool, Fail> {
    let outcome = outcome_of(alloc, project)?;
    match replayed(alloc, project, &outcome.trail)? {
        Ok(verdict) => Ok(verdict == outcome.verdict),
        Err(_) => Ok(false),
    }
}

#[test]
fn a_trail_gives_its_verdict_again(rt: HostRuntime) -> Result<(), Fail> {
    let project = project_of(rt.alloc())?;
    assert!(rt; gives_again(rt.alloc(), &project)?);
    Ok(())
}

// Whether a question asks if something exists at a path.
fn is_of(question: &Question, path: &str) -> bool {
    match question {
        Question::Exists(asked) => asked.as_str() == path,
        _ => false,
    }
}

fn tells_the_first(alloc: Global, project: &Project<'_>) -> Result<bool, Fail> {
    let empty = Trail::new(alloc);
    match replayed(alloc, project, &empty)? {
        Err(ReplayError::NotRecorded { question }) => Ok(is_of(&question, "/w/a.js/.pnp.cjs")),
        _ => Ok(false),
    }
}

#[test]
fn a_trail_without_questions_lacks_the_first(rt: HostRuntime) -> Result<(), Fail> {
    let project = project_of(rt.alloc())?;
    assert!(rt; tells_the_first(rt.alloc(), &project)?);
    Ok(())
}

// A trail in which a file is there.
fn recorded(alloc: Global, path: &str) -> Result<Trail, Fail> {
    let mut trail = Trail::new(alloc);
    let question = Question::File(Text::of(alloc, path)?);
    match trail.push(question, Reply::Flag(true)) {
        Ok(()) => Ok(trail),
        Err(_) => Err(Fail::from("no memory")),
    }
}

// Whether the latest fault of a tree refused the question if something exists at a path.
fn misses(tree: &ReplayTree<'_>, path: &str) -> bool {
    match tree.missing() {
        Some(question) => is_of(question, path),
        None => false,
    }
}

#[test]
fn a_question_that_is_not_recorded_is_a_fault(rt: HostRuntime) -> Result<(), Fail> {
    let path = "/w/a.js";
    assert!(rt; is_clean(path));
    let trail = recorded(rt.alloc(), path)?;
    let mut tree = ReplayTree::of(rt.alloc(), &trail);
    assert!(rt; matches!(tree.is_file(path), Ok(true)));
    assert!(rt; tree.missing().is_none());
    assert!(rt; tree.exists(path).is_err());
    assert!(rt; misses(&tree, path));
    assert_eq!(rt; (tree.faults(), tree.questions()), (1, 2));
    Ok(())
}
