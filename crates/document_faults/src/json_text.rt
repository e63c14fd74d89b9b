// Whether a document's bytes are JSON.
use crate::fault::Fault;
use serde_json::{Error, Value};
use std::alloc::Global;

// The most values that stand one in another.
const DEEPEST: usize = 127;

// The value of a document's bytes, or where they are none.
pub(crate) fn value_of(alloc: Global, bytes: &[u8]) -> Result<Value, Fault> {
    match str::from_utf8(bytes) {
        Ok(text) => value_of_text(alloc, text),
        Err(e) => {
            let (line, column) = place_at(bytes, e.valid_up_to());
            Err(Fault::told(format!(in alloc; "no UTF-8 at line {line} column {column}")?))
        }
    }
}

fn value_of_text(alloc: Global, text: &str) -> Result<Value, Fault> {
    match Value::from_str(alloc, text) {
        Ok(value) => Ok(value),
        Err(e) if e.is_memory() => Err(Fault::NoMemory),
        Err(e) => Err(Fault::told(match too_deep_at(text.as_bytes(), &e) {
            Some((line, column)) => format!(in alloc;
                "no JSON: more than 127 levels at line {line} column {column}"
            )?,
            None => format!(in alloc; "no JSON: {e}")?,
        })),
    }
}

// Where the first value begins that stands below 127 others, if a text is refused for it: the place of the refusal is
// that of its bracket, or the one behind it.
fn too_deep_at(text: &[u8], e: &Error) -> Option<(usize, usize)> {
    let at = first_too_deep(text)?;
    let refused = (e.line(), e.column());
    let place = place_at(text, at);
    if place == refused || place_at(text, at.saturating_add(1)) == refused {
        Some(place)
    } else {
        None
    }
}

// Where the first list or object below 127 others begins.
fn first_too_deep(text: &[u8]) -> Option<usize> {
    let mut open = 0usize;
    let mut in_text = false;
    let mut escaped = false;
    for (at, byte) in text.iter().enumerate() {
        match *byte {
            _ if escaped => escaped = false,
            b'\\' if in_text => escaped = true,
            b'"' => in_text = !in_text,
            b'[' | b'{' if !in_text && open >= DEEPEST => return Some(at),
            b'[' | b'{' if !in_text => open += 1,
            b']' | b'}' if !in_text => open = open.saturating_sub(1),
            _ => {}
        }
    }
    None
}

// The line and the column of a byte, from 1.
fn place_at(bytes: &[u8], place: usize) -> (usize, usize) {
    let mut line = 1usize;
    let mut column = 1usize;
    for byte in bytes.iter().take(place) {
        if *byte == b'\n' {
            line = line.saturating_add(1);
            column = 1;
        } else {
            column = column.saturating_add(1);
        }
    }
    (line, column)
}
