// The steps of a session document.
ghost use Rattle.std.specs.Prelude.{option_map};
ghost use Rattle.serde_json.specs.Find.{as_str};
ghost use Rattle.document_core.specs.Given.{file_of, request_of};
ghost use Rattle.json_reading.specs.Reading.{ReadsAs};
ghost use Rattle.session_report.specs.Given.{step_in};
ghost use Rattle.session_report.specs.declared.step.Step.TheVariants as step;

use document_core::{GivenFile, GivenRequest};
use json_reading::{FromJson, FromJsonError, JsonValue};
use std::alloc::Global;
use sugar_path::Text;

/// One step of a session.
#[derive(Drop)]
pub enum Step {
    /// A request is asked.
    Ask(GivenRequest),
    /// A file is put.
    Put(GivenFile),
    /// The file at a path is taken out.
    Remove(Text),
}

impl FromJson for Step {
    ghost use Rattle.session_report.specs.Given.{step_of};

    ghost reads = { step_of };

    fn from_json<J: JsonValue>(alloc: Global, value: &J) -> Result<Self, FromJsonError> {
        step_in(
            alloc,
            value.member("ask"),
            value.member("put"),
            value.member("remove"),
        )
    }
}

// The step that exactly one of its fields gives.
fn step_in<J: JsonValue>(
    alloc: Global,
    ask: Option<&J>,
    put: Option<&J>,
    remove: Option<&J>,
) -> Result<Step, FromJsonError>
    ensures { ReadsAs result (step_in (option_map (λ v. J.stands_for v.now) ask.entry)
        (option_map (λ v. J.stands_for v.now) put.entry)
        (option_map (λ v. J.stands_for v.now) remove.entry)) }
{
    match (ask, put, remove) {
        (Some(request), None, None) => ask_in(alloc, request),
        (None, Some(file), None) => put_in(alloc, file),
        (None, None, Some(path)) => removal_in(alloc, path),
        _ => Err(FromJsonError::OtherKind),
    }
}

fn ask_in<J: JsonValue>(alloc: Global, request: &J) -> Result<Step, FromJsonError>
    ensures { ReadsAs result (option_map step.Ask (request_of (J.stands_for request.now))) }
{
    Ok(Step::Ask(GivenRequest::from_json(alloc, request)?))
}

fn put_in<J: JsonValue>(alloc: Global, file: &J) -> Result<Step, FromJsonError>
    ensures { ReadsAs result (option_map step.Put (file_of (J.stands_for file.now))) }
{
    Ok(Step::Put(GivenFile::from_json(alloc, file)?))
}

fn removal_in<J: JsonValue>(alloc: Global, path: &J) -> Result<Step, FromJsonError>
    ensures { ReadsAs result (option_map step.Remove (as_str (J.stands_for path.now))) }
{
    Ok(Step::Remove(Text::from_json(alloc, path)?))
}
