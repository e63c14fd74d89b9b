// The JSON text inside a manifest's program file.
ghost use Rattle.std.specs.Prelude.{◌≡◌, IfOk, option_map, string_bytes};
ghost use Rattle.std.specs.Cow.{cow_str_bytes};
ghost use Rattle.pnp_core.specs.Payload.{
  payload,
  quoted,
  after_leftmost,
  after_opening,
  after_constant,
  after_call,
  is_blank,
  after_blank,
  after_blanks,
};

use memchr::memchr2;
use std::alloc::{AllocError, Global};
use std::borrow::CowStr;
use sugar_path::{Text, after};

/// The payload of a manifest's text: what stands between the quotes behind the leftmost of the two openings that Yarn
/// writes.
pub fn payload_of(alloc: Global, text: &str) -> Result<Option<Text>, AllocError>
    ensures { IfOk result (λ found. found ≡ payload text.now) }
{
    match payload_in(alloc, text)? {
        None => Ok(None),
        Some(payload) => Ok(Some(Text::from(payload.into_owned(alloc)?))),
    }
}

/// The payload in a text, which is borrowed where no character of it is escaped.
pub(crate) fn payload_in(alloc: Global, text: &str) -> Result<Option<CowStr<'_>>, AllocError>
    ensures { IfOk result (λ found. option_map cow_str_bytes found ≡ payload text.now) }
{
    match after_leftmost(text) {
        None => Ok(None),
        Some(rest) => Ok(Some(quoted(alloc, rest)?)),
    }
}

// What follows the leftmost opening.
fn after_leftmost(text: &str) -> Option<&str>
    ensures { option_map (λ t. t.now) result ≡ after_leftmost text.now }
{
    let mut rest = text;
    loop {
        if let Some(quoted) = after_opening(rest) {
            return Some(quoted);
        }
        let mut chars = rest.chars();
        match chars.next() {
            None => return None,
            Some(_) => rest = chars.as_str(),
        }
    }
}

// What follows one of the two openings, where the text begins with it.
fn after_opening(text: &str) -> Option<&str>
    ensures { option_map (λ t. t.now) result ≡ after_opening text.now }
{
    match after_constant(text) {
        Some(rest) => Some(rest),
        None => after("hydrateRuntimeState(JSON.parse('", text),
    }
}

#[tactic(auto, unfolding(crate::specs::Payload::after_constant))]
fn after_constant(text: &str) -> Option<&str>
    ensures { option_map (λ t. t.now) result ≡ after_constant text.now }
{
    let name = after_some_blanks(after("const", text)?)?;
    let sign = after_blanks(after("RAW_RUNTIME_STATE", name)?);
    let quote = after_blanks(after("=", sign)?);
    after("'", quote)
}

fn after_some_blanks(text: &str) -> Option<&str>
    ensures { option_map (λ t. t.now) result ≡ option_map after_blanks (after_blank text.now) }
{
    let rest = after_blank(text)?;
    Some(after_blanks(rest))
}

fn after_blanks(text: &str) -> &str
    ensures { result.now ≡ after_blanks text.now }
{
    let mut rest = text;
    while let Some(behind) = after_blank(rest) {
        rest = behind;
    }
    rest
}

// What follows a blank.
fn after_blank(text: &str) -> Option<&str>
    ensures { option_map (λ t. t.now) result ≡ after_blank text.now }
{
    let mut chars = text.chars();
    let first = chars.next()?;
    if is_blank(first) {
        Some(chars.as_str())
    } else {
        None
    }
}

fn is_blank(c: char) -> bool
    ensures { result ≡ is_blank c }
{
    c == ' ' || c == '\r' || c == '\n'
}

// What stands up to the closing quote, with each escaped character in place of its escape.
fn quoted(alloc: Global, text: &str) -> Result<CowStr<'_>, AllocError>
    ensures { IfOk result (λ s. cow_str_bytes s ≡ quoted text.now) }
{
    let bytes = text.as_bytes();
    match memchr2(b'\'', b'\\', bytes) {
        None => Ok(CowStr::Borrowed(text)),
        Some(end) if bytes[end] == b'\'' => Ok(CowStr::Borrowed(&text[..end])),
        Some(_) => Ok(CowStr::Owned(unescaped(alloc, text)?)),
    }
}

// The text of a literal in a string of its own. It is taken in runs between the escapes.
fn unescaped(alloc: Global, text: &str) -> Result<String, AllocError>
    ensures { IfOk result (λ s. string_bytes s ≡ quoted text.now) }
{
    let mut made = String::with_capacity(alloc, text.len())?;
    let mut rest = text;
    while let Some(at) = memchr2(b'\'', b'\\', rest.as_bytes()) {
        made.push_str(&rest[..at])?;
        if rest.as_bytes()[at] == b'\'' {
            return Ok(made);
        }
        let mut chars = rest[at + 1..].chars();
        match chars.next() {
            None => return Ok(made),
            Some(escaped) => made.push(escaped)?,
        }
        rest = chars.as_str();
    }
    made.push_str(rest)?;
    Ok(made)
}
