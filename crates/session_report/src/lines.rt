// The lines of a session's steps.
ghost use Rattle.std.specs.Prelude.{◌≡◌, ◌≢◌, false, None, Some, Err, IfOk, OnOk, string_bytes};
ghost use Rattle.serde_json.specs.View.{view};
ghost use Rattle.serde_json.specs.Written.{has_float};
ghost use Rattle.tree_core.specs.declared.memory.PutError.TheVariants.{NoMemory};
ghost use Rattle.session_core.specs.Session.{after_step};
ghost use Rattle.session_core.specs.SessionView.{state_of};
ghost use Rattle.session_report.specs.Lines.{conflict_value, dropped_value, line_of, put_value, step_line};
ghost use Rattle.session_report.specs.Lines.{step_lines, taken, unclean_value};
ghost use Rattle.session_report.specs.declared.step.Step.TheVariants as step;

use crate::step::Step;
use document_core::{GivenFile, GivenRequest};
use report_core::line_of_verdict;
use serde_json::{Value, json};
use session_core::Session;
use std::alloc::{AllocError, Global};
use tree_core::PutError;

/// Takes steps in order, and gives their lines.
pub(crate) fn lines_of(
    alloc: Global,
    session: &mut Session<'_>,
    steps: &[Step],
) -> Result<String, AllocError>
    ensures { IfOk result (λ lines.
        string_bytes lines ≡ step_lines (state_of session.old) steps.now) }
{
    let mut lines = String::new(alloc);
    for step in steps {
        let line = line_of(alloc, session, step)?;
        lines.push_str(line.as_str())?;
    }
    Ok(lines)
}

// Takes one step, and gives its line.
fn line_of(alloc: Global, session: &mut Session<'_>, step: &Step) -> Result<String, AllocError>
    ensures line { IfOk result (λ line.
        string_bytes line ≡ step_line (state_of session.old) step.now) }
    ensures taken { OnOk result
        (state_of session.new ≡ after_step (state_of session.old) (taken step.now)) }
{
    match step {
        Step::Ask(request) => ask(alloc, session, request),
        Step::Put(file) => put(alloc, session, file),
        Step::Remove(path) => remove(alloc, session, path.as_str()),
    }
}

// Asks a request: the line is that of its verdict.
fn ask(
    alloc: Global,
    session: &mut Session<'_>,
    request: &GivenRequest,
) -> Result<String, AllocError>
    ensures line { IfOk result (λ line. string_bytes line
        ≡ step_line (state_of session.old) (step.Ask request.now)) }
    ensures taken { OnOk result (state_of session.new
        ≡ after_step (state_of session.old) (taken (step.Ask request.now))) }
{
    let outcome = session.ask(&request.importer, request.specifier.as_str())?;
    line_of_verdict(alloc, &outcome.verdict)
}

// Puts a file: the line tells how many outcomes are dropped, or why the file is refused.
fn put(alloc: Global, session: &mut Session<'_>, file: &GivenFile) -> Result<String, AllocError>
    ensures line { IfOk result (λ line. string_bytes line
        ≡ step_line (state_of session.old) (step.Put file.now)) }
    ensures taken { OnOk result (state_of session.new
        ≡ after_step (state_of session.old) (taken (step.Put file.now))) }
{
    let path = file.path.as_str();
    let put = session.put(path, file.content.as_slice(), file.canonical.as_str());
    line_of_put(alloc, path, put)
}

// Takes a file out: the line tells how many outcomes are dropped, or that there is no such file.
fn remove(alloc: Global, session: &mut Session<'_>, path: &str) -> Result<String, AllocError>
    ensures line { IfOk result (λ line. string_bytes line
        ≡ step_line (state_of session.old) (step.Remove path.now)) }
    ensures taken { OnOk result (state_of session.new
        ≡ after_step (state_of session.old) (taken (step.Remove path.now))) }
{
    let dropped = session.remove(path);
    line_of_removal(alloc, dropped)
}

/// The line of a put at a path, by what it answered: how many outcomes are dropped, or why the file is refused. Where
/// it found no memory, there is no line.
pub fn line_of_put(
    alloc: Global,
    path: &str,
    put: Result<usize, PutError>,
) -> Result<String, AllocError>
    ensures line { IfOk result (λ line. string_bytes line ≡ line_of (put_value path.now put)) }
    ensures starved { OnOk result (put ≢ Err NoMemory) }
{
    match put {
        Ok(dropped) => line_of_removal(alloc, Some(dropped)),
        Err(PutError::Unclean) => line_of_unclean(alloc, path),
        Err(PutError::Conflict { other }) => line_of_conflict(alloc, other.as_str()),
        Err(PutError::NoMemory) => Err(AllocError),
    }
}

/// The line of a removal, by what it answered: how many outcomes are dropped, or that no file had the path.
pub fn line_of_removal(alloc: Global, dropped: Option<usize>) -> Result<String, AllocError>
    ensures { IfOk result (λ line. string_bytes line ≡ line_of (dropped_value dropped)) }
{
    line_of_value(alloc, value_of_dropped(alloc, dropped)?)
}

fn value_of_dropped(alloc: Global, dropped: Option<usize>) -> Result<Value, AllocError>
    ensures { IfOk result (λ value. view value ≡ dropped_value dropped) }
{
    match dropped {
        Some(count) => json!(in alloc; {"dropped": count}),
        None => json!(in alloc; {"dropped": null}),
    }
}

// The line of a file that is refused for its path or its canonical name.
fn line_of_unclean(alloc: Global, path: &str) -> Result<String, AllocError>
    ensures { IfOk result (λ line. string_bytes line ≡ line_of (unclean_value path.now)) }
{
    line_of_value(alloc, value_of_unclean(alloc, path)?)
}

fn value_of_unclean(alloc: Global, path: &str) -> Result<Value, AllocError>
    ensures { IfOk result (λ value. view value ≡ unclean_value path.now) }
{
    let refused = json!(in alloc; {"kind": "Unclean", "path": path})?;
    json!(in alloc; {"refused": refused})
}

// The line of a file that another one is in the way of.
fn line_of_conflict(alloc: Global, other: &str) -> Result<String, AllocError>
    ensures { IfOk result (λ line. string_bytes line ≡ line_of (conflict_value other.now)) }
{
    line_of_value(alloc, value_of_conflict(alloc, other)?)
}

fn value_of_conflict(alloc: Global, other: &str) -> Result<Value, AllocError>
    ensures { IfOk result (λ value. view value ≡ conflict_value other.now) }
{
    let refused = json!(in alloc; {"kind": "Conflict", "other": other})?;
    json!(in alloc; {"refused": refused})
}

/// The line of a value.
pub fn line_of_value(alloc: Global, value: Value) -> Result<String, AllocError>
    requires { has_float (view value) ≡ false }
    ensures { IfOk result (λ line. string_bytes line ≡ line_of (view value)) }
{
    let mut line = value.to_string(alloc)?;
    line.push_str("\n")?;
    Ok(line)
}
