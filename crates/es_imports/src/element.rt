// The piece at the front within an element of JSX.
ghost use Rattle.std.specs.Prelude.{◌≡◌, ◌≤◌, ◌<◌, ◌+◌, IfOk, length};
ghost use Rattle.es_imports.specs.Elements.{
  attribute_string,
  child_at,
  element_text,
  is_tag_mark,
  opening_len,
  tag_at,
  tag_mark_at,
  tag_slash,
};

use crate::literal::{block_comment, line_comment};
use crate::part::Part;
use crate::piece::{Kind, Piece};
use crate::refusal::Cause;
use crate::run::run_len;

// Between tags.
pub(crate) fn child_at(text: &[u8]) -> Result<Piece, Cause>
    ensures value { result ≡ child_at text.now }
    ensures within { IfOk result (λ piece. piece.len ≤ length text.now) }
    ensures some { IfOk result (λ piece. 0 < piece.len) }
{
    match text {
        [] => Err(Cause::Character),
        [c, rest @ ..] => {
            if *c == b'<' {
                Ok(Piece::new(Kind::Punctuator, opening_len(rest)))
            } else if *c == b'{' {
                Ok(Piece::new(Kind::Punctuator, 1))
            } else {
                Ok(element_text(rest))
            }
        }
    }
}

// Text between tags, if `text` stands behind its first byte.
fn element_text(text: &[u8]) -> Piece
    ensures value { result ≡ element_text text.now }
    ensures within { result.len ≤ length text.now + 1 }
    ensures some { 0 < result.len }
{
    Piece::new(Kind::ElementText, run_len(Part::Child, text) + 1)
}

// How many bytes `<` or `</` takes, if `text` stands behind its first byte.
fn opening_len(text: &[u8]) -> usize
    ensures value { result ≡ opening_len text.now }
    ensures within { result ≤ length text.now + 1 }
    ensures some { 0 < result }
{
    if text.starts_with(b"/") { 2 } else { 1 }
}

// In a tag.
pub(crate) fn tag_at(text: &[u8]) -> Result<Piece, Cause>
    ensures value { result ≡ tag_at text.now }
    ensures within { IfOk result (λ piece. piece.len ≤ length text.now) }
    ensures some { IfOk result (λ piece. 0 < piece.len) }
{
    let spaces = run_len(Part::Space, text);
    if spaces > 0 {
        return Ok(Piece::new(Kind::WhiteSpace, spaces));
    }
    let name = run_len(Part::TagName, text);
    if name > 0 {
        return Ok(Piece::new(Kind::TagName, name));
    }
    tag_mark_at(text)
}

fn tag_mark_at(text: &[u8]) -> Result<Piece, Cause>
    ensures value { result ≡ tag_mark_at text.now }
    ensures within { IfOk result (λ piece. piece.len ≤ length text.now) }
    ensures some { IfOk result (λ piece. 0 < piece.len) }
{
    match text {
        [b'"', rest @ ..] => attribute_string(Part::AttributeDouble, b"\"", rest),
        [b'\'', rest @ ..] => attribute_string(Part::AttributeSingle, b"'", rest),
        [b'/', rest @ ..] => tag_slash(rest),
        [c, ..] if is_tag_mark(*c) => Ok(Piece::new(Kind::Punctuator, 1)),
        _ => Err(Cause::Character),
    }
}

// What a slash begins in a tag, if `text` stands behind it.
fn tag_slash(text: &[u8]) -> Result<Piece, Cause>
    ensures value { result ≡ tag_slash text.now }
    ensures within { IfOk result (λ piece. piece.len ≤ length text.now + 1) }
    ensures some { IfOk result (λ piece. 0 < piece.len) }
{
    match text {
        [b'>', ..] => Ok(Piece::new(Kind::Punctuator, 2)),
        [b'*', inner @ ..] => block_comment(inner),
        [b'/', ..] => Ok(line_comment(text)),
        _ => Ok(Piece::new(Kind::Punctuator, 1)),
    }
}

fn is_tag_mark(c: u8) -> bool
    ensures { result ≡ is_tag_mark c }
{
    matches!(c, b'>' | b'<' | b'{' | b'=' | b'.' | b':')
}

// An attribute's string, if `text` stands behind its quote.
fn attribute_string(part: Part, quote: &[u8], text: &[u8]) -> Result<Piece, Cause>
    requires { length quote.now ≡ 1 }
    ensures value { result ≡ attribute_string part quote.now text.now }
    ensures within { IfOk result (λ piece. piece.len ≤ length text.now + 1) }
    ensures some { IfOk result (λ piece. 0 < piece.len) }
{
    let inner = run_len(part, text);
    if text[inner..].starts_with(quote) {
        Ok(Piece::new(Kind::AttributeString, inner + 2))
    } else {
        Err(Cause::StringLiteral)
    }
}
