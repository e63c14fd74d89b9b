// The piece at a text's front.
ghost use Rattle.std.specs.Prelude.{◌≡◌, ◌≤◌, ◌<◌, ◌+◌, IfOk, length};
ghost use Rattle.es_imports.specs.Tokens.{
  begins_line_comment,
  code_at,
  marked_at,
  piece_at,
  private_name,
  punctuator,
  slash_at,
};

use crate::element::{child_at, tag_at};
use crate::literal::{
    block_comment, line_comment, regular_expression, string_literal, template_from,
};
use crate::number::number_len;
use crate::part::Part;
use crate::piece::{Goal, Kind, Piece, Within};
use crate::punctuator::{punctuator_len, stands_alone};
use crate::refusal::Cause;
use crate::run::run_len;

// The piece at the front, under a goal.
pub(crate) fn piece_at(goal: Goal, text: &[u8]) -> Result<Piece, Cause>
    ensures value { result ≡ piece_at goal text.now }
    ensures within { IfOk result (λ piece. piece.len ≤ length text.now) }
    ensures some { IfOk result (λ piece. 0 < piece.len) }
{
    match goal.within {
        Within::Code => code_at(goal, text),
        Within::Tag => tag_at(text),
        Within::Children => child_at(text),
    }
}

// The piece at the front of code. Half of all pieces are one of the marks that are told here at once.
fn code_at(goal: Goal, text: &[u8]) -> Result<Piece, Cause>
    ensures value { result ≡ code_at goal text.now }
    ensures within { IfOk result (λ piece. piece.len ≤ length text.now) }
    ensures some { IfOk result (λ piece. 0 < piece.len) }
{
    match text {
        [c, ..] if stands_alone(*c) => Ok(Piece::new(Kind::Punctuator, 1)),
        _ => other_at(goal, text),
    }
}

// The piece at the front of code, by each kind in turn.
fn other_at(goal: Goal, text: &[u8]) -> Result<Piece, Cause>
    ensures value { result ≡ code_at goal text.now }
    ensures within { IfOk result (λ piece. piece.len ≤ length text.now) }
    ensures some { IfOk result (λ piece. 0 < piece.len) }
{
    let spaces = run_len(Part::Space, text);
    if spaces > 0 {
        return Ok(Piece::new(Kind::WhiteSpace, spaces));
    }
    let digits = number_len(text);
    if digits > 0 {
        return Ok(Piece::new(Kind::Number, digits));
    }
    let name = run_len(Part::Name, text);
    if name > 0 {
        return Ok(Piece::new(Kind::Name, name));
    }
    marked_at(goal, text)
}

// Whether a comment that ends with its line begins here: the mark `-->` begins one where no token
// stands before it in the line.
fn begins_line_comment(goal: Goal, text: &[u8]) -> bool
    ensures { result ≡ begins_line_comment goal text.now }
{
    text.starts_with(b"//")
        || text.starts_with(b"<!--")
        || goal.begins_line && text.starts_with(b"-->")
}

// The piece at the front, by its first byte, which begins neither white space nor a number nor a name.
fn marked_at(goal: Goal, text: &[u8]) -> Result<Piece, Cause>
    ensures value { result ≡ marked_at goal text.now }
    ensures within { IfOk result (λ piece. piece.len ≤ length text.now) }
    ensures some { IfOk result (λ piece. 0 < piece.len) }
{
    match text {
        [] => Err(Cause::Character),
        [_, rest @ ..] if begins_line_comment(goal, text) => Ok(line_comment(rest)),
        [b'"', rest @ ..] => string_literal(Part::DoubleQuoted, b'"', rest),
        [b'\'', rest @ ..] => string_literal(Part::SingleQuoted, b'\'', rest),
        [b'`', rest @ ..] => template_from(Kind::Template, Kind::TemplateHead, rest),
        [b'}', rest @ ..] if goal.in_template => {
            template_from(Kind::TemplateTail, Kind::TemplateMiddle, rest)
        }
        [b'/', rest @ ..] => slash_at(goal, text, rest),
        [b'#', rest @ ..] => private_name(rest),
        _ => punctuator(text),
    }
}

// The piece that begins with a slash, behind which `rest` stands.
fn slash_at(goal: Goal, text: &[u8], rest: &[u8]) -> Result<Piece, Cause>
    requires { length rest.now + 1 ≡ length text.now }
    ensures value { result ≡ slash_at goal text.now rest.now }
    ensures within { IfOk result (λ piece. piece.len ≤ length text.now) }
    ensures some { IfOk result (λ piece. 0 < piece.len) }
{
    match rest {
        [b'*', inner @ ..] => block_comment(inner),
        _ if goal.divides => punctuator(text),
        _ => regular_expression(rest),
    }
}

// A name behind `#`, behind which `rest` stands.
fn private_name(rest: &[u8]) -> Result<Piece, Cause>
    ensures value { result ≡ private_name rest.now }
    ensures within { IfOk result (λ piece. piece.len ≤ length rest.now + 1) }
    ensures some { IfOk result (λ piece. 0 < piece.len) }
{
    let name = run_len(Part::Name, rest);
    if name == 0 {
        return Err(Cause::Character);
    }
    Ok(Piece::new(Kind::PrivateName, name + 1))
}

fn punctuator(text: &[u8]) -> Result<Piece, Cause>
    ensures value { result ≡ punctuator text.now }
    ensures within { IfOk result (λ piece. piece.len ≤ length text.now) }
    ensures some { IfOk result (λ piece. 0 < piece.len) }
{
    let len = punctuator_len(text);
    if len == 0 {
        return Err(Cause::Character);
    }
    Ok(Piece::new(Kind::Punctuator, len))
}
