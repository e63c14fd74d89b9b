// Reads a document's bytes as JSON.
ghost use Rattle.std.specs.Result.{result_map_both};
ghost use Rattle.serde_json.specs.View.{view};
ghost use Rattle.json_reading.specs.Texts.{data_in};
ghost use Rattle.document_core.specs.Cause.{Meets};
ghost use Rattle.document_core.specs.Json.{json_value};

use crate::cause::{Cause, DocumentError};
use json::Scratch;
use json_reading::{FromJsonError, ReadJson};
use serde_json::Value;
use std::alloc::Global;

/// The value of bytes that are UTF-8 and read as JSON of at most 127 levels.
pub fn read_json(alloc: Global, bytes: &[u8]) -> Result<Value, DocumentError>
    ensures { Meets (result_map_both view (λ e. e) result) (json_value bytes.now) }
{
    match json_reading::read_json(alloc, bytes) {
        Ok(value) => Ok(value),
        Err(FromJsonError::OtherKind) => Err(DocumentError::Refused(Cause::NotJson)),
        Err(FromJsonError::NoMemory) => Err(DocumentError::NoMemory),
    }
}

/// The value that bytes are as JSON, which borrows its texts from the bytes if no number stands in it.
pub(crate) fn read_bytes<'a>(
    alloc: Global,
    bytes: &'a [u8],
    scratch: &'a mut Scratch,
) -> Result<ReadJson<'a>, DocumentError>
    ensures { Meets (result_map_both data_in (λ e. e) result) (json_value bytes.now) }
{
    match json_reading::read_bytes(alloc, bytes, scratch) {
        Ok(value) => Ok(value),
        Err(FromJsonError::OtherKind) => Err(DocumentError::Refused(Cause::NotJson)),
        Err(FromJsonError::NoMemory) => Err(DocumentError::NoMemory),
    }
}
