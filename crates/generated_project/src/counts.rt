// The counts of a generated project's outcomes.
ghost use Rattle.std.specs.Prelude.{◌≡◌, ◌+◌, ◌++◌, IfOk, OnOk, map, string_bytes};
ghost use Rattle.document_core.specs.Outcomes.{outcome_on};
ghost use Rattle.generated_project.specs.Counts.{IsWithOutcome, counted, counts_of, generated_line, line_of_counts};
ghost use Rattle.generated_project.specs.Generated.{generated_settings};

use crate::requests::generated_requests;
use crate::tree::generated_tree;
use document_core::{GivenRequest, outcome_of};
use indexmap::IndexMap;
use resolve_stack::{KnownTree, Outcome, Project, Settings, TargetEnv, Verdict};
use std::alloc::{AllocError, Global};
use sugar_path::Text;
use tree_core::MemoryTree;

/// How many requests there were, how many were answered and how many refused, and how many questions their trails have.
#[derive(Clone, Copy, Debug, PartialEq, Eq)]
pub struct Counts {
    pub requests: usize,
    pub answered: usize,
    pub refused: usize,
    pub questions: usize,
}

/// The line of the counts of a project of so many packages.
#[tactic(auto, unfolding(crate::specs::Counts::generated_line))]
pub fn line_of_size(alloc: Global, size: usize) -> Result<String, AllocError>
    ensures { IfOk result (λ line. string_bytes line ≡ generated_line size) }
{
    let tree = generated_tree(alloc, size)?;
    let requests = generated_requests(alloc, size)?;
    let project = generated_project(alloc)?;
    let counts = counts_over(alloc, tree, &project, &requests)?;
    line_of_counts(alloc, counts)
}

// The project. No setting of it is refused, but that isn't shown here: a refusal would count as want of memory.
fn generated_project(alloc: Global) -> Result<Project<'static>, AllocError>
    ensures { IfOk result (λ project. project ≡ generated_settings) }
{
    let settings = Settings {
        cwd: Text::of(alloc, "/g")?,
        target: TargetEnv::Node,
        preserve_symlinks: false,
        node_modules: true,
        alias: IndexMap::new(alloc),
        ts: None,
        lock: None,
        conditions: None,
    };
    match Project::new(alloc, settings) {
        Ok(project) => Ok(project),
        Err(_) => Err(AllocError),
    }
}

// The counts of the outcomes of requests over a tree.
fn counts_over(
    alloc: Global,
    tree: MemoryTree,
    project: &Project<'_>,
    requests: &[GivenRequest],
) -> Result<Counts, AllocError>
    ensures { IfOk result (λ counts.
        counts ≡ counts_of (map (outcome_on tree.files project.now) requests.now)) }
{
    let mut tree = KnownTree::of(alloc, tree);
    counts_on(alloc, &mut tree, project, requests)
}

// The counts of the outcomes of requests.
fn counts_on(
    alloc: Global,
    tree: &mut KnownTree,
    project: &Project<'_>,
    requests: &[GivenRequest],
) -> Result<Counts, AllocError>
    ensures { IfOk result (λ counts.
        counts ≡ counts_of (map (outcome_on tree.old.files project.now) requests.now)) }
{
    let mut counts = Counts {
        requests: 0,
        answered: 0,
        refused: 0,
        questions: 0,
    };
    for request in requests {
        counts = with_request(alloc, tree, project, request, counts)?;
    }
    Ok(counts)
}

// The counts with one request more.
fn with_request(
    alloc: Global,
    tree: &mut KnownTree,
    project: &Project<'_>,
    request: &GivenRequest,
    counts: Counts,
) -> Result<Counts, AllocError>
    ensures more { IfOk result (λ more.
        IsWithOutcome counts (outcome_on tree.old.files project.now request.now) more) }
    ensures files { tree.new.files ≡ tree.old.files }
{
    let outcome = outcome_of(alloc, tree, project, request)?;
    with_outcome(counts, &outcome)
}

// The counts with one outcome more. More than a number holds don't fit into memory.
fn with_outcome(counts: Counts, outcome: &Outcome) -> Result<Counts, AllocError>
    ensures { IfOk result (λ more. IsWithOutcome counts outcome.now more) }
{
    let is_answered = matches!(outcome.verdict, Verdict::Answered(_));
    Ok(Counts {
        requests: plus(counts.requests, 1)?,
        answered: plus(counts.answered, usize::from(is_answered))?,
        refused: plus(counts.refused, usize::from(!is_answered))?,
        questions: plus(counts.questions, outcome.trail.len())?,
    })
}

fn plus(a: usize, b: usize) -> Result<usize, AllocError>
    ensures { IfOk result (λ sum. sum ≡ a + b) }
{
    a.checked_add(b).ok_or(AllocError)
}

// The line that tells the counts, with its line end.
fn line_of_counts(alloc: Global, counts: Counts) -> Result<String, AllocError>
    ensures { IfOk result (λ line. string_bytes line ≡ line_of_counts counts) }
{
    let mut line = counted(alloc, "requests ", counts.requests)?;
    push_counted(alloc, &mut line, " answered ", counts.answered)?;
    push_counted(alloc, &mut line, " refused ", counts.refused)?;
    push_counted(alloc, &mut line, " questions ", counts.questions)?;
    line.push_str("\n")?;
    Ok(line)
}

// A number behind a word.
fn counted(alloc: Global, word: &str, n: usize) -> Result<String, AllocError>
    ensures { IfOk result (λ text. string_bytes text ≡ counted word.now n) }
{
    format!(in alloc; "{word}{n}")
}

fn push_counted(alloc: Global, line: &mut String, word: &str, n: usize) -> Result<(), AllocError>
    ensures { OnOk result (string_bytes line.new ≡ string_bytes line.old ++ counted word.now n) }
{
    let text = counted(alloc, word, n)?;
    line.push_str(text.as_str())
}
