// Reads the files and the requests of a document from their JSON values.
ghost use Rattle.std.specs.Prelude.{codes, option_map};
ghost use Rattle.serde_json.specs.Find.{as_str};
ghost use Rattle.json_reading.specs.Reading.{ReadsAs, field_by, present_or};
ghost use Rattle.trail_texts.specs.Reading.{importer_of};
ghost use Rattle.document_core.specs.Given.{content_of};

use json_reading::{FromJson, FromJsonError, JsonValue, field};
use resolve_stack::FileName;
use std::alloc::Global;
use sugar_path::{Bytes, Text};
use trail_texts::{bytes_of_hex, read_importer};

/// A file as a document gives it.
#[derive(Drop)]
pub struct GivenFile {
    pub path: Text,
    pub content: Bytes,
    pub canonical: Text,
}

/// One request of a document: who asks, and for which specifier.
#[derive(Drop)]
pub struct GivenRequest {
    pub importer: FileName,
    pub specifier: Text,
}

impl FromJson for GivenFile {
    ghost use Rattle.document_core.specs.Given.{file_of};

    ghost reads = { file_of };

    // Copies share the path and the bytes.
    fn from_json<J: JsonValue>(alloc: Global, value: &J) -> Result<Self, FromJsonError> {
        let given: Text = field(alloc, value, "path")?;
        let path = given.into_shared()?;
        let content = content_in(alloc, value.member("text"), value.member("hex"))?;
        let canonical = canonical_in(alloc, value.member("canonical"), &path)?;
        Ok(GivenFile {
            path,
            content,
            canonical,
        })
    }
}

// The bytes that exactly one of a text and a hex text gives.
fn content_in<J: JsonValue>(
    alloc: Global,
    text: Option<&J>,
    hex: Option<&J>,
) -> Result<Bytes, FromJsonError>
    ensures { ReadsAs result (content_of (option_map (λ v. J.stands_for v.now) text.entry)
        (option_map (λ v. J.stands_for v.now) hex.entry)) }
{
    match (text, hex) {
        (Some(text), None) => bytes_of_text(alloc, text.as_str()),
        (None, Some(hex)) => bytes_of_hex(alloc, hex.as_str()),
        _ => Err(FromJsonError::OtherKind),
    }
}

// A canonical name, or the path where there is none.
fn canonical_in<J: JsonValue>(
    alloc: Global,
    canonical: Option<&J>,
    path: &Text,
) -> Result<Text, FromJsonError>
    ensures { ReadsAs result (present_or path.now as_str
        (option_map (λ v. J.stands_for v.now) canonical.entry)) }
{
    match canonical {
        Some(name) => Text::from_json(alloc, name),
        None => Ok(path.try_clone(alloc)?),
    }
}

// The bytes of a text.
fn bytes_of_text(alloc: Global, text: Option<&str>) -> Result<Bytes, FromJsonError>
    ensures { ReadsAs result (option_map (λ t. t.now) text.entry) }
{
    match text {
        Some(text) => Ok(Bytes::of(alloc, text.as_bytes())?),
        None => Err(FromJsonError::OtherKind),
    }
}

impl FromJson for GivenRequest {
    ghost use Rattle.document_core.specs.Given.{request_of};

    ghost reads = { request_of };

    fn from_json<J: JsonValue>(alloc: Global, value: &J) -> Result<Self, FromJsonError> {
        let importer = importer_in(alloc, value)?;
        let specifier: Text = field(alloc, value, "specifier")?;
        Ok(GivenRequest {
            importer,
            specifier,
        })
    }
}

// From where a request is asked.
fn importer_in<J: JsonValue>(alloc: Global, request: &J) -> Result<FileName, FromJsonError>
    ensures { ReadsAs result
        (field_by (codes "from") importer_of (J.stands_for request.now)) }
{
    match request.member("from") {
        Some(from) => read_importer(alloc, from),
        None => Err(FromJsonError::OtherKind),
    }
}
