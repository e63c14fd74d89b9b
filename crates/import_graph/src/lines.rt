// What a file imports, told from its lines.
ghost use Rattle.std.specs.Prelude.{◌≡◌, IfOk, option_map};
ghost use Rattle.import_graph.specs.Lines.{
  as_text,
  begins_import,
  between_last,
  import_of,
  imports_of,
  is_blank,
  past_blanks,
  quoted,
};

use memchr::memrchr;
use std::alloc::{AllocError, Global};
use std::str;
use sugar_path::{List, Text};

/// What a file with these bytes imports, line by line and in order. A line is taken by its first
/// word and its last two marks alone, and the bytes need not be UTF-8 but between these.
pub fn scan_lines(alloc: Global, bytes: &[u8]) -> Result<List<Text>, AllocError>
    ensures { IfOk result (λ texts. texts ≡ imports_of bytes.now) }
{
    let mut texts = Vec::new(alloc);
    for line in bytes.split(|b| *b == b'\n') {
        if let Some(text) = import_of(line) {
            texts.push(Text::of(alloc, text)?)?;
        }
    }
    Ok(List::from(texts))
}

// What a line imports.
fn import_of(line: &[u8]) -> Option<&str>
    ensures { option_map (λ x. x.now) result ≡ import_of line.now }
{
    if !begins_import(past_blanks(line)) {
        return None;
    }
    as_text(quoted(line)?)
}

// The line without the blanks in front.
fn past_blanks(line: &[u8]) -> &[u8]
    ensures { result.now ≡ past_blanks line.now }
{
    let blanks = line.iter().take_while(|b| is_blank(**b)).count();
    &line[blanks..]
}

fn is_blank(b: u8) -> bool
    ensures { result ≡ is_blank b }
{
    b == b' ' || b == b'\t'
}

// Whether a line without blanks in front begins with a word that something is imported by.
fn begins_import(line: &[u8]) -> bool
    ensures { result ≡ begins_import line.now }
{
    line.starts_with(b"import ") || line.starts_with(b"export ") || line.starts_with(b"} from ")
}

// What stands between the last two quotes of a line, or else between its last two apostrophes.
fn quoted(line: &[u8]) -> Option<&[u8]>
    ensures { option_map (λ x. x.now) result ≡ quoted line.now }
{
    match between_last(b'"', line) {
        Some(bytes) => Some(bytes),
        None => between_last(b'\'', line),
    }
}

// What stands between the last two of a mark.
fn between_last(mark: u8, line: &[u8]) -> Option<&[u8]>
    ensures { option_map (λ x. x.now) result ≡ between_last mark line.now }
{
    let closing = memrchr(mark, line)?;
    let before = &line[..closing];
    let opening = memrchr(mark, before)?;
    Some(&before[opening + 1..])
}

// Bytes as a text, where they are UTF-8.
fn as_text(bytes: &[u8]) -> Option<&str>
    ensures { option_map (λ x. x.now) result ≡ as_text bytes.now }
{
    match str::from_utf8(bytes) {
        Ok(text) => Some(text),
        Err(_) => None,
    }
}
