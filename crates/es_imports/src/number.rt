// Numbers at a text's front.
ghost use Rattle.std.specs.Prelude.{◌≡◌, ◌≤◌, length};
ghost use Rattle.es_imports.specs.Numbers.{
  begins_number,
  begins_other_base,
  decimal_len,
  exponent_mark_len,
  fraction_len,
  number_len,
  with_exponent,
  with_suffix,
};

use crate::part::Part;
use crate::run::run_len;

// Whether a number begins at the front.
fn begins_number(text: &[u8]) -> bool
    ensures { result ≡ begins_number text.now }
{
    match text {
        [b'.', c, ..] => c.is_ascii_digit(),
        [c, ..] => c.is_ascii_digit(),
        [] => false,
    }
}

// How many bytes the number at the front takes, and 0 where none is.
pub(crate) fn number_len(text: &[u8]) -> usize
    ensures value { result ≡ number_len text.now }
    ensures within { result ≤ length text.now }
{
    if !begins_number(text) {
        0
    } else if begins_other_base(text) {
        run_len(Part::Name, text)
    } else {
        with_suffix(text, with_exponent(text, decimal_len(text)))
    }
}

// Whether the number is one in base 16, 8 or 2.
fn begins_other_base(text: &[u8]) -> bool
    ensures { result ≡ begins_other_base text.now }
{
    match text {
        [b'0', c, ..] => matches!(*c, b'x' | b'X' | b'o' | b'O' | b'b' | b'B'),
        _ => false,
    }
}

// The digits before a point, the point, and the digits behind it.
fn decimal_len(text: &[u8]) -> usize
    ensures value { result ≡ decimal_len text.now }
    ensures within { result ≤ length text.now }
{
    let whole = run_len(Part::Digit, text);
    whole + fraction_len(&text[whole..])
}

fn fraction_len(text: &[u8]) -> usize
    ensures value { result ≡ fraction_len text.now }
    ensures within { result ≤ length text.now }
{
    match text {
        [b'.', rest @ ..] => 1 + run_len(Part::Digit, rest),
        _ => 0,
    }
}

// A number that takes so many bytes, with its exponent.
fn with_exponent(text: &[u8], len: usize) -> usize
    requires { len ≤ length text.now }
    ensures value { result ≡ with_exponent text.now len }
    ensures within { result ≤ length text.now }
{
    let rest = &text[len..];
    let mark = exponent_mark_len(rest);
    len + mark + run_len(Part::Digit, &rest[mark..])
}

// The `e` of an exponent with its sign, where a digit follows, and else 0.
fn exponent_mark_len(text: &[u8]) -> usize
    ensures value { result ≡ exponent_mark_len text.now }
    ensures within { result ≤ length text.now }
{
    match text {
        [b'e' | b'E', b'+' | b'-', c, ..] if c.is_ascii_digit() => 2,
        [b'e' | b'E', c, ..] if c.is_ascii_digit() => 1,
        _ => 0,
    }
}

// The number with the suffix `n`.
fn with_suffix(text: &[u8], len: usize) -> usize
    requires { len ≤ length text.now }
    ensures value { result ≡ with_suffix text.now len }
    ensures within { result ≤ length text.now }
{
    if text[len..].starts_with(b"n") {
        len + 1
    } else {
        len
    }
}
