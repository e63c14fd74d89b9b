// Comments, strings, templates and regular expressions at a text's front.
ghost use Rattle.std.specs.Prelude.{◌≡◌, ◌≤◌, ◌<◌, ◌+◌, IfOk, length};
ghost use Rattle.es_imports.specs.Runs.{run};
ghost use Rattle.es_imports.specs.Literals.{
  block_comment,
  class_len,
  line_comment,
  pattern_part,
  regular_expression,
  string_literal,
  template_from,
};

use crate::part::{Part, pattern_escape_len};
use crate::piece::{Kind, Piece};
use crate::refusal::Cause;
use crate::run::run_len;
use crate::space::begins_line_end;

// A comment that ends with its line, if `text` stands behind the first byte of its mark.
pub(crate) fn line_comment(text: &[u8]) -> Piece
    ensures value { result ≡ line_comment text.now }
    ensures within { result.len ≤ length text.now + 1 }
    ensures some { 0 < result.len }
{
    Piece::new(Kind::Comment, run_len(Part::Line, text) + 1)
}

// A comment that ends with `*/`, if `text` stands behind its opening mark.
pub(crate) fn block_comment(text: &[u8]) -> Result<Piece, Cause>
    ensures value { result ≡ block_comment text.now }
    ensures some { IfOk result (λ piece. 0 < piece.len) }
    ensures within { IfOk result (λ piece. piece.len ≤ length text.now + 2) }
{
    let inner = run_len(Part::Block, text);
    if text[inner..].starts_with(b"*/") {
        Ok(Piece::new(Kind::Comment, inner + 4))
    } else {
        Err(Cause::Comment)
    }
}

// A string in such quotes, if `text` stands behind the opening one.
pub(crate) fn string_literal(part: Part, quote: u8, text: &[u8]) -> Result<Piece, Cause>
    ensures value { result ≡ string_literal part quote text.now }
    ensures some { IfOk result (λ piece. 0 < piece.len) }
    ensures within { IfOk result (λ piece. piece.len ≤ length text.now + 1) }
{
    let inner = run_len(part, text);
    if text[inner..].starts_with(&[quote]) {
        Ok(Piece::new(Kind::StringLiteral, inner + 2))
    } else {
        Err(Cause::StringLiteral)
    }
}

// A part of a template up to its end, which makes the one kind, or up to a substitution, which
// makes the other, if `text` stands behind its opening mark.
pub(crate) fn template_from(whole: Kind, opening: Kind, text: &[u8]) -> Result<Piece, Cause>
    ensures value { result ≡ template_from whole opening text.now }
    ensures some { IfOk result (λ piece. 0 < piece.len) }
    ensures within { IfOk result (λ piece. piece.len ≤ length text.now + 1) }
{
    let inner = run_len(Part::Template, text);
    let rest = &text[inner..];
    if rest.starts_with(b"`") {
        Ok(Piece::new(whole, inner + 2))
    } else if rest.starts_with(b"${") {
        Ok(Piece::new(opening, inner + 3))
    } else {
        Err(Cause::Template)
    }
}

// A character, an escape or a class of a regular expression.
fn pattern_part(text: &[u8]) -> usize
    ensures value { result ≡ pattern_part text.now }
    ensures within { result ≤ length text.now }
{
    match text {
        [] => 0,
        [c, rest @ ..] => {
            if *c == b'\\' {
                pattern_escape_len(rest)
            } else if *c == b'[' {
                class_len(rest)
            } else if *c == b'/' || begins_line_end(text) {
                0
            } else {
                1
            }
        }
    }
}

// How many bytes a class takes, if `text` stands behind its bracket, and 0 where it doesn't end.
fn class_len(text: &[u8]) -> usize
    ensures value { result ≡ class_len text.now }
    ensures within { result ≤ length text.now + 1 }
{
    let inner = run_len(Part::Class, text);
    if text[inner..].starts_with(b"]") {
        inner + 2
    } else {
        0
    }
}

fn pattern_body_len(text: &[u8]) -> usize
    ensures value { result ≡ run pattern_part text.now }
    ensures within { result ≤ length text.now }
{
    let mut at = 0;
    loop {
        let len = pattern_part(&text[at..]);
        if len == 0 {
            return at;
        }
        at += len;
    }
}

// A regular expression with its flags, if `text` stands behind its opening slash.
pub(crate) fn regular_expression(text: &[u8]) -> Result<Piece, Cause>
    ensures value { result ≡ regular_expression text.now }
    ensures some { IfOk result (λ piece. 0 < piece.len) }
    ensures within { IfOk result (λ piece. piece.len ≤ length text.now + 1) }
{
    let inner = pattern_body_len(text);
    match &text[inner..] {
        [b'/', flags @ ..] => Ok(Piece {
            kind: Kind::RegularExpression,
            len: inner + 2 + run_len(Part::Name, flags),
        }),
        _ => Err(Cause::RegularExpression),
    }
}
