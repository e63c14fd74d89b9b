// Reads a graph document from its bytes.
ghost use Rattle.std.specs.Prelude.{◌≡◌, ◌<◌, None, IfOk, codes};
ghost use Rattle.serde_json.specs.View.{view};
ghost use Rattle.json_reading.specs.Reading.{field_by};
ghost use Rattle.document_core.specs.Cause.{Meets};
ghost use Rattle.document_core.specs.Fields.{required};
ghost use Rattle.document_core.specs.declared.cause.Field.TheVariants.{Entries};
ghost use Rattle.import_graph.specs.GraphState.{entry_refusal};
ghost use Rattle.graph_report.specs.Given.{entries_of, fields_in, fields_of};

use crate::scanner::{Scanner, scanner_in};
use crate::step::GraphStep;
use document_core::{
    Cause, DocumentError, Field, GivenProject, read_json, read_project, required_field,
};
use import_graph::first_unclean;
use serde_json::Value;
use session_report::capacity_in;
use std::alloc::Global;
use sugar_path::{List, Text};

/// A graph document whose fields are read.
#[derive(Drop)]
pub struct GraphDocument {
    pub project: GivenProject,
    /// The paths from which the graph is followed, each a clean absolute one other than `/`.
    pub entries: List<Text>,
    /// How many outcomes are kept.
    pub capacity: usize,
    pub steps: List<GraphStep>,
    /// What tells the imports of files.
    pub scanner: Scanner,
}

/// The fields of a graph document's bytes, or the first cause against them.
#[tactic(auto, unfolding(crate::specs::Given::fields_in))]
pub fn read_graph_document(alloc: Global, bytes: &[u8]) -> Result<GraphDocument, DocumentError>
    ensures fields { Meets result (fields_in bytes.now) }
    ensures clean { IfOk result (λ d. entry_refusal d.entries ≡ None) }
    ensures some { IfOk result (λ d. 0 < d.capacity) }
{
    let value = read_json(alloc, bytes)?;
    read_fields(alloc, &value)
}

// The graph document that a JSON value gives.
fn read_fields(alloc: Global, value: &Value) -> Result<GraphDocument, DocumentError>
    ensures fields { Meets result (fields_of (view value.now)) }
    ensures clean { IfOk result (λ d. entry_refusal d.entries ≡ None) }
    ensures some { IfOk result (λ d. 0 < d.capacity) }
{
    let project = read_project(alloc, value)?;
    let entries = entries_in(alloc, value)?;
    let capacity = capacity_in(value)?;
    let steps: List<GraphStep> = required_field(alloc, value, Field::Steps)?;
    let scanner = scanner_in(value)?;
    Ok(GraphDocument {
        project,
        entries,
        capacity,
        steps,
        scanner,
    })
}

// The entries of the graph.
fn entries_in(alloc: Global, value: &Value) -> Result<List<Text>, DocumentError>
    ensures entries { Meets result
        (required Entries (field_by (codes "entries") entries_of (view value.now))) }
    ensures clean { IfOk result (λ entries. entry_refusal entries ≡ None) }
{
    let entries: List<Text> = required_field(alloc, value, Field::Entries)?;
    match first_unclean(entries.as_slice()) {
        None => Ok(entries),
        Some(_) => Err(DocumentError::Refused(Cause::BadField(Field::Entries))),
    }
}
