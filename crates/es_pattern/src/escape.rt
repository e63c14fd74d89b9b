// What escapes stand for.
ghost use Rattle.std.specs.Prelude.{◌≡◌, ◌≤◌, ◌<◌, IfOk, IfSome, Option, List, option_map};
ghost use Rattle.es_pattern.specs.Escapes.{
  escaped,
  hex_value,
  is_surrogate,
  range,
  set_of,
};
ghost use Rattle.es_pattern.specs.Reading.{greatest_from, scalar};

use crate::piece::CharRange;
use std::alloc::{AllocError, Global};

fn range(first: char, last: char) -> CharRange
    ensures { result ≡ range first last }
{
    CharRange { first, last }
}

fn digits(alloc: Global) -> Result<Vec<CharRange>, AllocError>
    ensures { IfOk result (λ ranges. option_map (λ (x : List CharRange). x) (set_of 100)
        ≡ Option.Some ranges.items) }
{
    Vec::from_slice(alloc, &[range('0', '9')])
}

fn no_digits(alloc: Global) -> Result<Vec<CharRange>, AllocError>
    ensures { IfOk result (λ ranges. option_map (λ (x : List CharRange). x) (set_of 68)
        ≡ Option.Some ranges.items) }
{
    Vec::from_slice(alloc, &[range('\0', '/'), range(':', '\u{10ffff}')])
}

fn words(alloc: Global) -> Result<Vec<CharRange>, AllocError>
    ensures { IfOk result (λ ranges. option_map (λ (x : List CharRange). x) (set_of 119)
        ≡ Option.Some ranges.items) }
{
    Vec::from_slice(
        alloc,
        &[
            range('0', '9'),
            range('A', 'Z'),
            range('_', '_'),
            range('a', 'z'),
        ],
    )
}

fn no_words(alloc: Global) -> Result<Vec<CharRange>, AllocError>
    ensures { IfOk result (λ ranges. option_map (λ (x : List CharRange). x) (set_of 87)
        ≡ Option.Some ranges.items) }
{
    Vec::from_slice(
        alloc,
        &[
            range('\0', '/'),
            range(':', '@'),
            range('[', '^'),
            range('`', '`'),
            range('{', '\u{10ffff}'),
        ],
    )
}

fn spaces(alloc: Global) -> Result<Vec<CharRange>, AllocError>
    ensures { IfOk result (λ ranges. option_map (λ (x : List CharRange). x) (set_of 115)
        ≡ Option.Some ranges.items) }
{
    Vec::from_slice(
        alloc,
        &[
            range('\t', '\r'),
            range(' ', ' '),
            range('\u{a0}', '\u{a0}'),
            range('\u{1680}', '\u{1680}'),
            range('\u{2000}', '\u{200a}'),
            range('\u{2028}', '\u{2029}'),
            range('\u{202f}', '\u{202f}'),
            range('\u{205f}', '\u{205f}'),
            range('\u{3000}', '\u{3000}'),
            range('\u{feff}', '\u{feff}'),
        ],
    )
}

fn no_spaces(alloc: Global) -> Result<Vec<CharRange>, AllocError>
    ensures { IfOk result (λ ranges. option_map (λ (x : List CharRange). x) (set_of 83)
        ≡ Option.Some ranges.items) }
{
    Vec::from_slice(
        alloc,
        &[
            range('\0', '\u{8}'),
            range('\u{e}', '\u{1f}'),
            range('!', '\u{9f}'),
            range('\u{a1}', '\u{167f}'),
            range('\u{1681}', '\u{1fff}'),
            range('\u{200b}', '\u{2027}'),
            range('\u{202a}', '\u{202e}'),
            range('\u{2030}', '\u{205e}'),
            range('\u{2060}', '\u{2fff}'),
            range('\u{3001}', '\u{fefe}'),
            range('\u{ff00}', '\u{10ffff}'),
        ],
    )
}

// The characters of `\d`, `\D`, `\w`, `\W`, `\s` or `\S`, by the letter.
pub(crate) fn set_of(alloc: Global, letter: char) -> Result<Option<Vec<CharRange>>, AllocError>
    ensures { IfOk result (λ set. option_map (λ ranges. ranges.items) set ≡ set_of letter) }
{
    let ranges = match letter {
        'd' => digits(alloc)?,
        'D' => no_digits(alloc)?,
        'w' => words(alloc)?,
        'W' => no_words(alloc)?,
        's' => spaces(alloc)?,
        'S' => no_spaces(alloc)?,
        _ => return Ok(None),
    };
    Ok(Some(ranges))
}

// The character that a letter or a punctuation mark stands for after a backslash, in a class and
// outside alike.
pub(crate) fn escaped(letter: char) -> Option<char>
    ensures { result ≡ escaped letter }
{
    match letter {
        't' => Some('\t'),
        'n' => Some('\n'),
        'v' => Some('\u{b}'),
        'f' => Some('\u{c}'),
        'r' => Some('\r'),
        _ => letter.is_ascii_punctuation().then_some(letter),
    }
}

// The value of a hexadecimal digit.
pub(crate) fn hex_value(digit: char) -> Option<u32>
    ensures value { result ≡ hex_value digit }
    ensures small { IfSome result (λ d. d < 16) }
{
    digit.to_digit(16)
}

// Whether the number is that of a surrogate.
pub(crate) fn is_surrogate(value: u32) -> bool
    ensures { result ≡ is_surrogate value }
{
    matches!(value, 0xd800..=0xdfff)
}

fn scalar(value: u32) -> Option<char>
    ensures { result ≡ scalar value }
{
    char::from_u32(value)
}

// The greatest character whose hexadecimal digits go on from `value` with `left` more, if there is
// one.
pub(crate) fn greatest_from(value: u32, left: u32) -> Option<char>
    requires { value ≤ 0xffff }
    ensures { result ≡ greatest_from value left }
{
    match left {
        0 => scalar(value),
        1 => scalar(value * 16 + 15),
        2 => scalar(value * 256 + 255),
        _ if is_surrogate(value * 4096 + 4095) => Some('\u{d7ff}'),
        _ => scalar(value * 4096 + 4095),
    }
}
