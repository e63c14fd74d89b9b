// Reads bytes as JSON.
ghost use Rattle.std.specs.Prelude.{◌≡◌, IfOk};
ghost use Rattle.std.specs.Result.{result_map_both};
ghost use Rattle.serde_json.specs.View.{view};
ghost use Rattle.json_reading.specs.Reading.{ReadsAs};
ghost use Rattle.json_reading.specs.Bytes.{json_of};
ghost use Rattle.json_reading.specs.Texts.{data_in};

use crate::error::FromJsonError;
use crate::texts::{ReadJson, read_owned, read_text};
use json::Scratch;
use serde_json::Value;
use std::alloc::Global;

/// The value of bytes that are UTF-8 and read as JSON of at most 127 levels. `OtherKind` comes where they are none.
#[tactic(auto, unfolding(crate::specs::Bytes::json_of))]
pub fn read_json(alloc: Global, bytes: &[u8]) -> Result<Value, FromJsonError>
    ensures { ReadsAs (result_map_both view (λ e. e) result) (json_of bytes.now) }
{
    match str::from_utf8(bytes) {
        Ok(text) => read_owned(alloc, text),
        Err(_) => Err(FromJsonError::OtherKind),
    }
}

/// The value that bytes are as JSON, which borrows its texts from the bytes if no number stands in it.
#[tactic(auto, unfolding(crate::specs::Bytes::json_of))]
pub fn read_bytes<'a>(
    alloc: Global,
    bytes: &'a [u8],
    scratch: &'a mut Scratch,
) -> Result<ReadJson<'a>, FromJsonError>
    ensures { ReadsAs (result_map_both data_in (λ e. e) result) (json_of bytes.now) }
{
    match str::from_utf8(bytes) {
        Ok(text) => read_text(alloc, text, scratch),
        Err(_) => Err(FromJsonError::OtherKind),
    }
}
