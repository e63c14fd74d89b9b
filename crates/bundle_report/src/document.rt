// Reads a replay document from its bytes.
ghost use Rattle.serde_json.specs.View.{view};
ghost use Rattle.document_core.specs.Cause.{Meets};
ghost use Rattle.bundle_report.specs.Given.{fields_in, fields_of};

use document_core::{
    DocumentError, Field, GivenSettings, read_json, read_settings, required_field,
};
use serde_json::Value;
use std::alloc::Global;
use sugar_path::Text;

/// A replay document whose fields are read.
#[derive(Drop)]
pub struct ReplayDocument {
    pub settings: GivenSettings,
    pub lock: Option<Text>,
    /// The text of the bundle that is to be replayed.
    pub bundle: Text,
}

/// The fields of a replay document's bytes, or the first cause against them.
#[tactic(auto, unfolding(crate::specs::Given::fields_in))]
pub fn read_replay_document(alloc: Global, bytes: &[u8]) -> Result<ReplayDocument, DocumentError>
    ensures { Meets result (fields_in bytes.now) }
{
    let value = read_json(alloc, bytes)?;
    read_fields(alloc, &value)
}

// The replay document that a JSON value gives. Files and requests that stand there aren't read.
fn read_fields(alloc: Global, value: &Value) -> Result<ReplayDocument, DocumentError>
    ensures { Meets result (fields_of (view value.now)) }
{
    let (settings, lock) = read_settings(alloc, value)?;
    let bundle: Text = required_field(alloc, value, Field::Bundle)?;
    Ok(ReplayDocument {
        settings,
        lock,
        bundle,
    })
}
