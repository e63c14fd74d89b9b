// What is told of a refused document.
use crate::document::check;
use crate::fault::{Fault, Told};
use crate::format::Format;
use crate::json_text::value_of;
use crate::placed::Placed;
use crate::unknown::Unknown;
use serde_json::Value;
use std::alloc::{AllocError, Global};

/// What people are told of a document that is refused, in lines with their ends: its first fault with its place and
/// what should stand there, and the fields that its format doesn't know, eight of them at most. Nothing is told of what
/// is wrong with the text of a bundle or with a manifest, of which the line of the refusal tells all.
pub fn told_of(alloc: Global, format: Format, bytes: &[u8]) -> Result<String, AllocError> {
    match value_of(alloc, bytes) {
        Ok(value) => lines_of(alloc, format, &value),
        Err(Fault::Told(told)) => line_of(alloc, &told),
        Err(Fault::NoMemory) => Err(AllocError),
    }
}

fn line_of(alloc: Global, told: &Told) -> Result<String, AllocError> {
    format!(in alloc; "{}\n", told.line)
}

fn lines_of(alloc: Global, format: Format, value: &Value) -> Result<String, AllocError> {
    let document = Placed::document(alloc, value);
    match check(&document, format) {
        Ok(()) => Ok(Unknown::of(&document, format, None)?.lines),
        Err(Fault::Told(told)) => {
            let mut lines = line_of(alloc, &told)?;
            let slip = told.slip.as_ref().map(|slip| slip.as_str());
            let unknown = Unknown::of(&document, format, slip)?;
            lines.push_str(unknown.lines.as_str())?;
            Ok(lines)
        }
        Err(Fault::NoMemory) => Err(AllocError),
    }
}
