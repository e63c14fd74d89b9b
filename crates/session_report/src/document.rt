// Reads a session document from its bytes.
ghost use Rattle.std.specs.Prelude.{◌≡◌, ◌<◌, codes, IfOk, option_and_then};
ghost use Rattle.serde_json.specs.Find.{as_number, as_u64};
ghost use Rattle.serde_json.specs.View.{view};
ghost use Rattle.json_reading.specs.Reading.{field_by};
ghost use Rattle.document_core.specs.Cause.{Meets};
ghost use Rattle.document_core.specs.Fields.{required};
ghost use Rattle.document_core.specs.declared.cause.Field.TheVariants.{Capacity};
ghost use Rattle.session_report.specs.Given.{capacity_of, fields_in, fields_of};

use crate::step::Step;
use document_core::{
    Cause, DocumentError, Field, GivenProject, read_json, read_project, required_field,
};
use serde_json::Value;
use std::alloc::Global;
use sugar_path::List;

/// The most outcomes that a session document lets its session keep.
pub const LARGEST: u64 = 65_536;

/// A session document whose fields are read.
#[derive(Drop)]
pub struct SessionDocument {
    pub project: GivenProject,
    /// How many outcomes the session keeps.
    pub capacity: usize,
    pub steps: List<Step>,
}

/// The fields of a session document's bytes, or the first cause against them.
#[tactic(auto, unfolding(crate::specs::Given::fields_in))]
pub fn read_session_document(alloc: Global, bytes: &[u8]) -> Result<SessionDocument, DocumentError>
    ensures fields { Meets result (fields_in bytes.now) }
    ensures some { IfOk result (λ d. 0 < d.capacity) }
{
    let value = read_json(alloc, bytes)?;
    read_fields(alloc, &value)
}

// The session document that a JSON value gives.
fn read_fields(alloc: Global, value: &Value) -> Result<SessionDocument, DocumentError>
    ensures fields { Meets result (fields_of (view value.now)) }
    ensures some { IfOk result (λ d. 0 < d.capacity) }
{
    let project = read_project(alloc, value)?;
    let capacity = capacity_in(value)?;
    let steps: List<Step> = required_field(alloc, value, Field::Steps)?;
    Ok(SessionDocument {
        project,
        capacity,
        steps,
    })
}

/// How many outcomes a document's session is to keep.
pub fn capacity_in(value: &Value) -> Result<usize, DocumentError>
    ensures capacity { Meets result
        (required Capacity (field_by (codes "capacity") capacity_of (view value.now))) }
    ensures some { IfOk result (λ n. 0 < n) }
{
    match value.get("capacity").and_then(Value::as_u64) {
        Some(count) if 0 < count && count <= LARGEST => Ok(count as usize),
        _ => Err(DocumentError::Refused(Cause::BadField(Field::Capacity))),
    }
}
