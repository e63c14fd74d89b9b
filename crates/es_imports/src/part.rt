// The parts that names, strings, templates, comments and classes are runs of.
ghost use Rattle.std.specs.Prelude.{◌≡◌, ◌≤◌, ◌+◌, length};
ghost use Rattle.std.specs.List.{prefix_len};
ghost use Rattle.es_imports.specs.Parts.{
  attribute_part,
  block_part,
  braced_escape_len,
  child_part,
  class_part,
  digit_part,
  escaped_part,
  is_ascii_name,
  is_hex,
  line_part,
  name_escape_len,
  name_part,
  part_len,
  pattern_escape_len,
  string_part,
  tag_name_part,
  template_part,
};

use crate::space::{begins_line_end, space_part, wide_space_len};

// What a run is made of.
#[derive(Clone, Copy)]
pub(crate) enum Part {
    Space,
    Name,
    Digit,
    DoubleQuoted,
    SingleQuoted,
    Template,
    Line,
    Block,
    Class,
    Child,
    TagName,
    AttributeDouble,
    AttributeSingle,
}

// How many bytes the part at the front takes, and 0 where none is.
#[inline(always)]
pub(crate) fn part_len(part: Part, text: &[u8]) -> usize
    ensures value { result ≡ part_len part text.now }
    ensures within { result ≤ length text.now }
{
    match part {
        Part::Space => space_part(text),
        Part::Name => name_part(text),
        Part::Digit => digit_part(text),
        Part::DoubleQuoted => string_part(b'"', text),
        Part::SingleQuoted => string_part(b'\'', text),
        Part::Template => template_part(text),
        Part::Line => line_part(text),
        Part::Block => block_part(text),
        Part::Class => class_part(text),
        Part::Child => child_part(text),
        Part::TagName => tag_name_part(text),
        Part::AttributeDouble => attribute_part(b'"', text),
        Part::AttributeSingle => attribute_part(b'\'', text),
    }
}

#[inline(always)]
fn is_ascii_name(c: u8) -> bool
    ensures { result ≡ is_ascii_name c }
{
    matches!(c, b'a'..=b'z' | b'A'..=b'Z' | b'0'..=b'9' | b'$' | b'_')
}

// A character of a name, or an escape for one.
#[inline(always)]
pub(crate) fn name_part(text: &[u8]) -> usize
    ensures value { result ≡ name_part text.now }
    ensures within { result ≤ length text.now }
{
    match text {
        [] => 0,
        [c, rest @ ..] if *c < 0x80 => {
            if is_ascii_name(*c) {
                1
            } else if *c == b'\\' {
                name_escape_len(rest)
            } else {
                0
            }
        }
        _ => { if wide_space_len(text) == 0 { 1 } else { 0 } }
    }
}

// How many bytes an escape takes in a name, if `text` stands behind its backslash, and else 0.
#[cold]
fn name_escape_len(text: &[u8]) -> usize
    ensures value { result ≡ name_escape_len text.now }
    ensures within { result ≤ length text.now + 1 }
{
    match text {
        [b'u', b'{', rest @ ..] => braced_escape_len(rest),
        [b'u', a, b, c, d, ..] if is_hex(*a) && is_hex(*b) && is_hex(*c) && is_hex(*d) => 6,
        _ => 0,
    }
}

// How long an escape with braces is, if `text` stands behind the opening one.
fn braced_escape_len(text: &[u8]) -> usize
    ensures value { result ≡ braced_escape_len text.now }
    ensures within { result ≤ length text.now + 3 }
{
    let digits = hex_len(text);
    if digits > 0 && text[digits..].starts_with(b"}") {
        digits + 4
    } else {
        0
    }
}

// How many hexadecimal digits are at the front.
fn hex_len(text: &[u8]) -> usize
    ensures value { result ≡ prefix_len is_hex text.now }
    ensures within { result ≤ length text.now }
{
    text.iter().take_while(|c| is_hex(**c)).count()
}

fn is_hex(c: u8) -> bool
    ensures { result ≡ is_hex c }
{
    c.is_ascii_hexdigit()
}

// A digit, or a `_` between digits.
#[inline(always)]
fn digit_part(text: &[u8]) -> usize
    ensures value { result ≡ digit_part text.now }
    ensures within { result ≤ length text.now }
{
    match text {
        [c, ..] if c.is_ascii_digit() || *c == b'_' => 1,
        _ => 0,
    }
}

// How many bytes an escape takes in a string or a template, if `text` stands behind its backslash:
// a line that is continued is one escape.
fn escaped_part(text: &[u8]) -> usize
    ensures value { result ≡ escaped_part text.now }
    ensures within { result ≤ length text.now + 1 }
{
    match text {
        [] => 0,
        [b'\r', b'\n', ..] => 3,
        _ => 2,
    }
}

// A character of a string, or an escape.
#[inline(always)]
fn string_part(quote: u8, text: &[u8]) -> usize
    ensures value { result ≡ string_part quote text.now }
    ensures within { result ≤ length text.now }
{
    match text {
        [] => 0,
        [c, rest @ ..] => {
            if *c == b'\\' {
                escaped_part(rest)
            } else if *c == quote || *c == b'\n' || *c == b'\r' {
                0
            } else {
                1
            }
        }
    }
}

// A character of a template, or an escape.
#[inline(always)]
fn template_part(text: &[u8]) -> usize
    ensures value { result ≡ template_part text.now }
    ensures within { result ≤ length text.now }
{
    match text {
        [] => 0,
        [c, rest @ ..] => {
            if *c == b'\\' {
                escaped_part(rest)
            } else if *c == b'`' || *c == b'$' && rest.starts_with(b"{") {
                0
            } else {
                1
            }
        }
    }
}

// A character of a comment up to the end of its line.
#[inline(always)]
fn line_part(text: &[u8]) -> usize
    ensures value { result ≡ line_part text.now }
    ensures within { result ≤ length text.now }
{
    if text.is_empty() || begins_line_end(text) {
        0
    } else {
        1
    }
}

// A character of a comment up to its mark.
#[inline(always)]
fn block_part(text: &[u8]) -> usize
    ensures value { result ≡ block_part text.now }
    ensures within { result ≤ length text.now }
{
    match text {
        [] => 0,
        [b'*', b'/', ..] => 0,
        _ => 1,
    }
}

// How many bytes an escape takes in a regular expression, if `text` stands behind its backslash.
pub(crate) fn pattern_escape_len(text: &[u8]) -> usize
    ensures value { result ≡ pattern_escape_len text.now }
    ensures within { result ≤ length text.now + 1 }
{
    if text.is_empty() || begins_line_end(text) {
        0
    } else {
        2
    }
}

// A character of a class within a regular expression, or an escape.
#[inline(always)]
fn class_part(text: &[u8]) -> usize
    ensures value { result ≡ class_part text.now }
    ensures within { result ≤ length text.now }
{
    match text {
        [] => 0,
        [c, rest @ ..] => {
            if *c == b'\\' {
                pattern_escape_len(rest)
            } else if *c == b']' || begins_line_end(text) {
                0
            } else {
                1
            }
        }
    }
}

// A character of the text between tags.
#[inline(always)]
fn child_part(text: &[u8]) -> usize
    ensures value { result ≡ child_part text.now }
    ensures within { result ≤ length text.now }
{
    match text {
        [] | [b'<', ..] | [b'{', ..] => 0,
        _ => 1,
    }
}

// A character of a name in a tag, which may have dashes.
#[inline(always)]
fn tag_name_part(text: &[u8]) -> usize
    ensures value { result ≡ tag_name_part text.now }
    ensures within { result ≤ length text.now }
{
    match text {
        [b'-', ..] => 1,
        _ => name_part(text),
    }
}

// A character of an attribute's string, in which nothing is an escape.
#[inline(always)]
fn attribute_part(quote: u8, text: &[u8]) -> usize
    ensures value { result ≡ attribute_part quote text.now }
    ensures within { result ≤ length text.now }
{
    match text {
        [c, ..] if *c != quote => 1,
        _ => 0,
    }
}
