// Writes the line of a refused document.
ghost use Rattle.std.specs.Prelude.{◌≡◌, ◌++◌, IfOk, codes, string_bytes};
ghost use Rattle.json.specs.Print.{quoted};
ghost use Rattle.serde_json.specs.Written.{compact_text};
ghost use Rattle.trail_texts.specs.TrailTexts.{question_value};
ghost use Rattle.document_core.specs.CauseLine.{cause_line, cause_text, project_cause};

use crate::cause::Cause;
use report_core::name_of_cause;
use resolve_stack::ProjectError;
use serde_json::Value;
use std::alloc::{AllocError, Global};
use sugar_path::Text;
use trail_texts::value_of_question;
use tree_core::Question;

/// The line of a refused document, with its line end.
#[tactic(auto, unfolding(crate::specs::CauseLine::cause_line))]
pub fn line_of_cause(alloc: Global, cause: &Cause) -> Result<String, AllocError>
    ensures { IfOk result (λ line. string_bytes line ≡ cause_line cause.now) }
{
    let text = text_of_cause(alloc, cause)?;
    format!(in alloc; "refused: {text}\n")
}

fn text_of_cause(alloc: Global, cause: &Cause) -> Result<String, AllocError>
    ensures { IfOk result (λ text. string_bytes text ≡ cause_text cause.now) }
{
    match cause {
        Cause::NotJson => String::from_str(alloc, "not-json"),
        Cause::BadField(field) => format!(in alloc; "bad-field {}", field.name()),
        Cause::BadTree { path, other: None } => {
            let path = quoted_text(alloc, path)?;
            format!(in alloc; "bad-tree {path}")
        }
        Cause::BadTree {
            path,
            other: Some(other),
        } => {
            let path = quoted_text(alloc, path)?;
            let other = quoted_text(alloc, other)?;
            format!(in alloc; "bad-tree {path} {other}")
        }
        Cause::BadBundle { line } => format!(in alloc; "bad-bundle {line}"),
        Cause::BadProject(e) => text_of_project_error(alloc, e),
        Cause::NotRecorded { request, question } => {
            let question = text_of_question(alloc, question)?;
            format!(in alloc; "not-recorded {request} {question}")
        }
        Cause::NoLock => String::from_str(alloc, "no-lock"),
        Cause::Hydration(cause) => format!(in alloc; "hydration {}", name_of_cause(*cause)),
    }
}

// Why settings make no project.
fn text_of_project_error(alloc: Global, e: &ProjectError) -> Result<String, AllocError>
    ensures { IfOk result (λ text.
        string_bytes text ≡ codes "bad-project " ++ project_cause e.now) }
{
    match e {
        ProjectError::SettingsFault { field } => {
            format!(in alloc; "bad-project SettingsFault {}", field.as_str())
        }
        ProjectError::EmptyTargets { at } => format!(in alloc; "bad-project EmptyTargets {at}"),
        ProjectError::TwoWildcards { at } => format!(in alloc; "bad-project TwoWildcards {at}"),
        ProjectError::ExactNeedsOne { at } => format!(in alloc; "bad-project ExactNeedsOne {at}"),
        ProjectError::LockParser { place: _, cause: _ } => {
            String::from_str(alloc, "bad-project LockParser")
        }
        ProjectError::NoMemory => String::from_str(alloc, "bad-project NoMemory"),
    }
}

// A question as JSON.
fn text_of_question(alloc: Global, question: &Question) -> Result<String, AllocError>
    ensures { IfOk result (λ text. string_bytes text ≡ compact_text (question_value question.now)) }
{
    value_of_question(alloc, question)?.to_string(alloc)
}

// A text as JSON.
fn quoted_text(alloc: Global, text: &Text) -> Result<String, AllocError>
    ensures { IfOk result (λ line. string_bytes line ≡ quoted text.now) }
{
    Value::try_from_str(alloc, text.as_str())?.to_string(alloc)
}
