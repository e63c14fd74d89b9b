// The questions of a bare name's answer, and trees that fail at one of them.
use crate::project::{importer, project_by, project_of, tree_of};
use resolve_stack::{ImportError, Outcome, Project, resolve_import};
use std::alloc::{AllocError, Global};
use std::test::Fail;
use sugar_path::List;
use tree_core::{Question, Trail, Tree};

// What the bare name comes to, or nothing where the tree refused a question.
fn outcome_on<T: Tree>(
    alloc: Global,
    tree: &mut T,
    project: &Project<'_>,
) -> Result<Option<Outcome>, AllocError> {
    let importer = importer(alloc)?;
    match resolve_import(alloc, tree, project, &importer, "foo") {
        Ok(outcome) => Ok(Some(outcome)),
        Err(ImportError::TreeFault) => Ok(None),
        Err(ImportError::NoMemory) => Err(AllocError),
    }
}

// How many questions it takes, or nothing where the tree refused one.
fn count_on<T: Tree>(
    alloc: Global,
    tree: &mut T,
    project: &Project<'_>,
) -> Result<Option<usize>, AllocError> {
    match outcome_on(alloc, tree, project)? {
        Some(outcome) => Ok(Some(outcome.trail.len())),
        None => Ok(None),
    }
}

// How many questions each of two requests over one tree takes, which fails at the question of this number.
fn counts_with_fault_at(
    alloc: Global,
    project: &Project<'_>,
    number: u64,
) -> Result<(Option<usize>, Option<usize>), Fail> {
    let numbers = List::from(vec![in alloc; number]?);
    let mut tree = tree_of(alloc)?.fail_at(numbers);
    let first = count_on(alloc, &mut tree, project)?;
    Ok((first, count_on(alloc, &mut tree, project)?))
}

// Each of the eight questions ends the request, which has its answer when it is made again. A ninth isn't put: that
// number is the first question of the second request.
#[test]
fn a_tree_fails_at_each_question(rt: HostRuntime) -> Result<(), Fail> {
    let project = project_of(rt.alloc())?;
    for number in 1..10u64 {
        let counts = counts_with_fault_at(rt.alloc(), &project, number)?;
        let wanted = if number < 9 {
            (None, Some(8))
        } else {
            (Some(8), None)
        };
        assert_eq!(rt; counts, wanted, "at {number}");
    }
    Ok(())
}

fn kind_of(question: &Question) -> &'static str {
    match question {
        Question::File(_) => "file ",
        Question::Dir(_) => "dir ",
        Question::Exists(_) => "exists ",
        Question::Read(_) => "read ",
        Question::Canon(_) => "canon ",
    }
}

// The questions of a trail, a line each.
fn lines_of(alloc: Global, trail: &Trail) -> Result<String, AllocError> {
    let mut lines = String::new(alloc);
    for (question, _) in trail.iter() {
        put_line(&mut lines, question)?;
    }
    Ok(lines)
}

fn put_line(lines: &mut String, question: &Question) -> Result<(), AllocError> {
    lines.push_str(kind_of(question))?;
    lines.push_str(question.path())?;
    lines.push_str("\n")
}

// Whether these are the questions of the bare name in a project with this lock.
fn asks(alloc: Global, lock: Option<&str>, questions: &str) -> Result<bool, Fail> {
    let project = project_by(alloc, "/w", None, lock)?;
    let mut tree = tree_of(alloc)?;
    match outcome_on(alloc, &mut tree, &project)? {
        Some(outcome) => Ok(lines_of(alloc, &outcome.trail)?.as_str() == questions),
        None => Ok(false),
    }
}

#[test]
fn the_trail_has_its_questions_in_order(rt: HostRuntime) -> Result<(), Fail> {
    let questions = "exists /w/a.js/.pnp.cjs
exists /w/.pnp.cjs
read /w/.pnp.cjs
file /w/one/package.json
file /w/one/index.ts
file /w/one/index.tsx
file /w/one/index.js
canon /w/one/index.js
";
    assert!(rt; asks(rt.alloc(), None, questions)?);
    Ok(())
}

// With a lock the package.json of the asking package is read before any file is looked for.
#[test]
fn a_lock_asks_for_the_declared_range_first(rt: HostRuntime) -> Result<(), Fail> {
    let lock = r#"# a
# yarn lockfile v1


foo@^1.0.0:
  version "1.0.0"
"#;
    let questions = "exists /w/a.js/.pnp.cjs
exists /w/.pnp.cjs
read /w/.pnp.cjs
read /w/package.json
file /w/one/package.json
file /w/one/index.ts
file /w/one/index.tsx
file /w/one/index.js
canon /w/one/index.js
";
    assert!(rt; asks(rt.alloc(), Some(lock), questions)?);
    Ok(())
}
