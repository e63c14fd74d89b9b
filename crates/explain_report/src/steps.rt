// The questions of a trail, with what was there, by the step of the search that put them.
ghost use Rattle.std.specs.Prelude.{◌≡◌, ◌++◌, [], OnOk, IfOk, nat_eq, string_bytes};
ghost use Rattle.std.specs.List.{ends_with};
ghost use Rattle.explain_report.specs.Steps.{asked_line, flag_told, heading, step_of, steps_text, there};

use crate::joined::joined;
use std::alloc::{AllocError, Global};
use tree_core::{Question, Reply, Trail};

// Puts the questions in order, a heading before each run of one step.
pub(crate) fn put_steps(alloc: Global, text: &mut String, trail: &Trail) -> Result<(), AllocError>
    ensures { OnOk result (string_bytes text.new
        ≡ string_bytes text.old ++ steps_text [] trail.now) }
{
    let mut before = "";
    for step in trail.iter() {
        let now = step_of(&step.0);
        text.push_str(heading(alloc, before, now)?.as_str())?;
        text.push_str(asked_line(alloc, &step.0, &step.1)?.as_str())?;
        before = now;
    }
    Ok(())
}

// The heading of a step, where another one stood before.
fn heading(alloc: Global, before: &str, now: &str) -> Result<String, AllocError>
    ensures { IfOk result (λ line. string_bytes line ≡ heading before.now now.now) }
{
    if before == now {
        return Ok(String::new(alloc));
    }
    format!(in alloc; "  {now}\n")
}

// The line of a question and its reply.
fn asked_line(alloc: Global, question: &Question, reply: &Reply) -> Result<String, AllocError>
    ensures { IfOk result (λ line. string_bytes line ≡ asked_line question.now reply.now) }
{
    let mut line = String::from_str(alloc, "    ")?;
    line.push_str(joined(alloc, question.path(), ": ", there(question, reply), "\n")?.as_str())?;
    Ok(line)
}

// The step of the search that puts a question, told by its kind and its path.
fn step_of(question: &Question) -> &'static str
    ensures { result.now ≡ step_of question.now }
{
    match question {
        Question::File(path) if ends_in(path.as_str(), "/package.json") => "package.json",
        Question::File(_) => "file candidates",
        Question::Dir(_) => "walk",
        Question::Exists(_) => "nearest manifest",
        Question::Read(path) if ends_in(path.as_str(), "/.pnp.cjs") => "manifest",
        Question::Read(_) => "package.json",
        Question::Canon(_) => "spelling",
    }
}

fn ends_in(path: &str, name: &str) -> bool
    ensures { result ≡ ends_with nat_eq path.now name.now }
{
    path.ends_with(name)
}

// What was there.
fn there<'r>(question: &Question, reply: &'r Reply) -> &'r str
    ensures { result.now ≡ there question.now reply.now }
{
    match reply {
        Reply::Flag(is_there) => flag_told(question, *is_there),
        Reply::Bytes(Some(_)) => "read",
        Reply::Bytes(None) => "nothing to read",
        Reply::Name(Some(name)) => name.as_str(),
        Reply::Name(None) => "no canonical name",
    }
}

fn flag_told(question: &Question, is_there: bool) -> &'static str
    ensures { result.now ≡ flag_told question.now is_there }
{
    match question {
        Question::File(_) if is_there => "a file",
        Question::File(_) => "no file",
        Question::Dir(_) if is_there => "a folder",
        Question::Dir(_) => "no folder",
        _ if is_there => "there",
        _ => "nothing",
    }
}
