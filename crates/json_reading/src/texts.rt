// Reads a text as JSON.
ghost use Rattle.std.specs.Prelude.{◌≡◌, IfOk, IsErrOf, None};
ghost use Rattle.std.specs.Result.{result_map_both};
ghost use Rattle.json.specs.Value.{value_view};
ghost use Rattle.serde_json.specs.Read.{of_json, read};
ghost use Rattle.serde_json.specs.View.{view};
ghost use Rattle.json_reading.specs.Reading.{ReadsAs};
ghost use Rattle.json_reading.specs.Texts.{HasNoFloat, data_in};
ghost use Rattle.json_reading.specs.declared.error.FromJsonError.TheVariants.{OtherKind};

use crate::borrowed::holds_number;
use crate::error::FromJsonError;
use json::{Error, Reader, Scratch};
use serde_json::Value;
use std::alloc::Global;

// How deep arrays and objects may nest.
const MAX_DEPTH: usize = 127;

/// A JSON value that was read from a text.
#[derive(Drop)]
pub enum ReadJson<'a> {
    /// It borrows its texts. No number stands in it.
    Borrowed(json::Value<'a>),
    /// It owns its texts.
    Owned(Value),
}

/// The value of a text that reads as JSON of at most 127 levels. `OtherKind` comes where it is none. The scratch takes
/// the texts that have escapes.
pub fn read_text<'a>(
    alloc: Global,
    text: &'a str,
    scratch: &'a mut Scratch,
) -> Result<ReadJson<'a>, FromJsonError>
    ensures value { ReadsAs (result_map_both data_in (λ e. e) result) (read text.now) }
    ensures floats { IfOk result HasNoFloat }
{
    let value = read_borrowed(alloc, text, scratch)?;
    if !holds_number(&value) {
        return Ok(ReadJson::Borrowed(value));
    }
    // The tree goes before another one is made.
    drop(value);
    Ok(ReadJson::Owned(read_owned(alloc, text)?))
}

// The value of a text, whose texts are borrowed. What its numbers are isn't told.
fn read_borrowed<'a>(
    alloc: Global,
    text: &'a str,
    scratch: &'a mut Scratch,
) -> Result<json::Value<'a>, FromJsonError>
    ensures value { IfOk result (λ v. read text.now ≡ of_json (value_view v)) }
    ensures refused { IsErrOf result OtherKind → read text.now ≡ None }
{
    let mut reader = Reader::new(text, scratch)?;
    let value = match json::Value::read(alloc, &mut reader, MAX_DEPTH) {
        Ok(value) => value,
        Err(Error::OutOfMemory) => return Err(FromJsonError::NoMemory),
        Err(_) => return Err(FromJsonError::OtherKind),
    };
    match reader.next() {
        None => Ok(value),
        Some(_) => Err(FromJsonError::OtherKind),
    }
}

/// The value of a text, which owns its texts.
pub(crate) fn read_owned(alloc: Global, text: &str) -> Result<Value, FromJsonError>
    ensures { ReadsAs (result_map_both view (λ e. e) result) (read text.now) }
{
    match Value::from_str(alloc, text) {
        Ok(value) => Ok(value),
        Err(e) => {
            if e.is_memory() {
                Err(FromJsonError::NoMemory)
            } else {
                Err(FromJsonError::OtherKind)
            }
        }
    }
}
