// Reads an audit document from its bytes.
ghost use Rattle.std.specs.Prelude.{◌≡◌, IfOk, IsTrue, codes};
ghost use Rattle.serde_json.specs.View.{view};
ghost use Rattle.json_reading.specs.Reading.{field_by};
ghost use Rattle.sugar_path.specs.Path.{IsCleanPath};
ghost use Rattle.tree_core.specs.Tree.{is_file_path};
ghost use Rattle.document_core.specs.Cause.{Meets};
ghost use Rattle.document_core.specs.Fields.{required};
ghost use Rattle.document_core.specs.declared.cause.Field.TheVariants.{Manifest};
ghost use Rattle.audit_report.specs.Given.{fields_in, fields_of, file_path_of};

use document_core::{
    Cause, DocumentError, Field, GivenProject, read_json, read_project, required_field,
};
use serde_json::Value;
use std::alloc::Global;
use sugar_path::{Text, is_clean};

/// An audit document whose fields are read.
#[derive(Drop)]
pub struct AuditDocument {
    pub project: GivenProject,
    /// The path of the manifest that is to be audited, a clean absolute one other than `/`.
    pub manifest: Text,
}

/// The fields of an audit document's bytes, or the first cause against them.
#[tactic(auto, unfolding(crate::specs::Given::fields_in))]
pub fn read_audit_document(alloc: Global, bytes: &[u8]) -> Result<AuditDocument, DocumentError>
    ensures fields { Meets result (fields_in bytes.now) }
    ensures clean { IfOk result (λ d. IsCleanPath d.manifest) }
{
    let value = read_json(alloc, bytes)?;
    read_fields(alloc, &value)
}

// The audit document that a JSON value gives.
fn read_fields(alloc: Global, value: &Value) -> Result<AuditDocument, DocumentError>
    ensures fields { Meets result (fields_of (view value.now)) }
    ensures clean { IfOk result (λ d. IsCleanPath d.manifest) }
{
    let project = read_project(alloc, value)?;
    let manifest = manifest_in(alloc, value)?;
    Ok(AuditDocument { project, manifest })
}

// The path of the manifest that is to be audited.
fn manifest_in(alloc: Global, value: &Value) -> Result<Text, DocumentError>
    ensures manifest { Meets result
        (required Manifest (field_by (codes "manifest") file_path_of (view value.now))) }
    ensures clean { IfOk result IsCleanPath }
{
    let text: Text = required_field(alloc, value, Field::Manifest)?;
    if is_file_path(text.as_str()) {
        Ok(text)
    } else {
        Err(DocumentError::Refused(Cause::BadField(Field::Manifest)))
    }
}

// Whether a text is a clean absolute path other than `/`.
fn is_file_path(text: &str) -> bool
    ensures is { result ≡ is_file_path text.now }
    ensures clean { IsTrue result → IsCleanPath text.now }
{
    text != "/" && is_clean(text)
}
