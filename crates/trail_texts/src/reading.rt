// Reads importers and bytes.
ghost use Rattle.std.specs.Prelude.{◌≡◌, option_and_then, option_map};
ghost use Rattle.std.specs.List.{list_all};
ghost use Rattle.json_reading.specs.Reading.{ReadsAs};
ghost use Rattle.trail_texts.specs.Reading.{hex_bytes, importer_of, is_lower_hex_digit};

use json_reading::{FromJsonError, JsonValue, field};
use std::alloc::Global;
use sugar_path::{Bytes, Text};
use swc_loader::FileName;

/// What asks: the text of a path, an object with a custom name, or null for none.
pub fn read_importer<J: JsonValue>(alloc: Global, value: &J) -> Result<FileName, FromJsonError>
    ensures { ReadsAs result (importer_of (J.stands_for value.now)) }
{
    if value.is_null() {
        return Ok(FileName::Anon);
    }
    if let Some(name) = value.as_str() {
        return Ok(FileName::Real(Text::of(alloc, name)?));
    }
    Ok(FileName::Custom(field(alloc, value, "custom")?))
}

/// The bytes of a hex text in lower case.
pub fn bytes_of_hex(alloc: Global, text: Option<&str>) -> Result<Bytes, FromJsonError>
    ensures { ReadsAs result (option_and_then hex_bytes (option_map (λ t. t.now) text.entry)) }
{
    let Some(text) = text else {
        return Err(FromJsonError::OtherKind);
    };
    if !is_lower_hex(text.as_bytes()) {
        return Err(FromJsonError::OtherKind);
    }
    match hex::decode(alloc, text) {
        Ok(bytes) => Ok(Bytes::from_vec(bytes)?),
        Err(hex::FromHexError::OutOfMemory) => Err(FromJsonError::NoMemory),
        Err(_) => Err(FromJsonError::OtherKind),
    }
}

// Whether a text has digits of hex in lower case alone.
fn is_lower_hex(text: &[u8]) -> bool
    ensures { result ≡ list_all is_lower_hex_digit text.now }
{
    text.iter().all(|c| is_lower_hex_digit(*c))
}

fn is_lower_hex_digit(c: u8) -> bool
    ensures { result ≡ is_lower_hex_digit c }
{
    matches!(c, b'0'..=b'9' | b'a'..=b'f')
}
