// The steps of a graph document.
ghost use Rattle.std.specs.Prelude.{option_map};
ghost use Rattle.serde_json.specs.Find.{as_str};
ghost use Rattle.document_core.specs.Given.{file_of};
ghost use Rattle.json_reading.specs.Reading.{ReadsAs};
ghost use Rattle.graph_report.specs.Given.{asking_in, step_in};
ghost use Rattle.graph_report.specs.declared.step.GraphStep.TheVariants as step;

use document_core::GivenFile;
use json_reading::{FromJson, FromJsonError, JsonValue};
use std::alloc::Global;
use sugar_path::Text;

/// One step over an import graph.
#[derive(Drop)]
pub enum GraphStep {
    /// The graph is asked for.
    Graph,
    /// A file is put.
    Put(GivenFile),
    /// The file at a path is taken out.
    Remove(Text),
}

impl FromJson for GraphStep {
    ghost use Rattle.graph_report.specs.Given.{step_of};

    ghost reads = { step_of };

    fn from_json<J: JsonValue>(alloc: Global, value: &J) -> Result<Self, FromJsonError> {
        step_in(
            alloc,
            value.member("graph"),
            value.member("put"),
            value.member("remove"),
        )
    }
}

// The step that exactly one of its fields gives.
fn step_in<J: JsonValue>(
    alloc: Global,
    graph: Option<&J>,
    put: Option<&J>,
    remove: Option<&J>,
) -> Result<GraphStep, FromJsonError>
    ensures { ReadsAs result (step_in (option_map (λ v. J.stands_for v.now) graph.entry)
        (option_map (λ v. J.stands_for v.now) put.entry)
        (option_map (λ v. J.stands_for v.now) remove.entry)) }
{
    match (graph, put, remove) {
        (Some(graph), None, None) => asking_in(graph),
        (None, Some(file), None) => put_in(alloc, file),
        (None, None, Some(path)) => removal_in(alloc, path),
        _ => Err(FromJsonError::OtherKind),
    }
}

// The graph is asked for by null.
fn asking_in<J: JsonValue>(graph: &J) -> Result<GraphStep, FromJsonError>
    ensures { ReadsAs result (asking_in (J.stands_for graph.now)) }
{
    if graph.is_null() {
        Ok(GraphStep::Graph)
    } else {
        Err(FromJsonError::OtherKind)
    }
}

fn put_in<J: JsonValue>(alloc: Global, file: &J) -> Result<GraphStep, FromJsonError>
    ensures { ReadsAs result (option_map step.Put (file_of (J.stands_for file.now))) }
{
    Ok(GraphStep::Put(GivenFile::from_json(alloc, file)?))
}

fn removal_in<J: JsonValue>(alloc: Global, path: &J) -> Result<GraphStep, FromJsonError>
    ensures { ReadsAs result (option_map step.Remove (as_str (J.stands_for path.now))) }
{
    Ok(GraphStep::Remove(Text::from_json(alloc, path)?))
}
