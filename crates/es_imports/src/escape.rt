// What the characters and escapes of a string or a template stand for.
ghost use Rattle.std.specs.Prelude.{◌≡◌, ◌<◌, ◌≤◌, ◌+◌, IfSome, IsTrue, OnSome, length};
ghost use Rattle.std.specs.List.{prefix_len};
ghost use Rattle.es_imports.specs.Escapes.{
  braced,
  digit,
  escape,
  hex_from,
  hex_in,
  is_hex,
  is_line_end,
  is_octal,
  letter,
  octal,
  part_at,
  spelled,
  unicode,
};

// What a part stands for, if anything: a character or a unit of UTF-16; and how many characters
// the part takes.
#[derive(Clone, Copy)]
pub(crate) struct Meaning {
    pub(crate) code: Option<u32>,
    pub(crate) len: usize,
}

impl Meaning {
    ghost use Rattle.std.specs.Prelude.{◌≡◌, Option};
    ghost use Rattle.es_imports.specs.Escapes.{meaning};

    fn new(code: Option<u32>, len: usize) -> Meaning
        ensures { result ≡ meaning code len }
    {
        Meaning { code, len }
    }
}

// The part at the front: a character, or an escape. A line end is a line feed.
pub(crate) fn part_at(text: &[char]) -> Meaning
    ensures value { result ≡ part_at text.now }
    ensures within { result.len ≤ length text.now }
    ensures some { 0 < length text.now → 0 < result.len }
    ensures fits { IfSome result.code (λ code. code < 0x110000) }
{
    match text {
        [] => Meaning::new(None, 0),
        ['\\', rest @ ..] => escape(rest),
        ['\r', '\n', ..] => Meaning::new(Some(10), 2),
        ['\r', ..] => Meaning::new(Some(10), 1),
        [c, ..] => Meaning::new(Some(*c as u32), 1),
    }
}

fn is_line_end(c: char) -> bool
    ensures { result ≡ is_line_end c }
{
    matches!(c, '\n' | '\r' | '\u{2028}' | '\u{2029}')
}

fn is_octal(c: char) -> bool
    ensures { result ≡ is_octal c }
{
    matches!(c, '0'..='7')
}

// An escape, if `text` stands behind its backslash. One that isn't well formed stands for its
// letter.
fn escape(text: &[char]) -> Meaning
    ensures value { result ≡ escape text.now }
    ensures within { result.len ≤ length text.now + 1 }
    ensures some { 0 < result.len }
    ensures fits { IfSome result.code (λ code. code < 0x110000) }
{
    match text {
        [] => Meaning::new(None, 1),
        ['\r', '\n', ..] => Meaning::new(None, 3),
        ['u', rest @ ..] => unicode(rest),
        ['x', rest @ ..] => spelled(hex_in(2, rest), 'x', 4),
        [c, rest @ ..] => {
            if is_line_end(*c) {
                Meaning::new(None, 2)
            } else if is_octal(*c) {
                octal(*c, rest)
            } else {
                Meaning::new(Some(letter(*c)), 2)
            }
        }
    }
}

// The character that an escape by one letter stands for.
fn letter(c: char) -> u32
    ensures value { result ≡ letter c }
    ensures fits { result < 0x110000 }
{
    match c {
        'b' => 8,
        't' => 9,
        'n' => 10,
        'v' => 11,
        'f' => 12,
        'r' => 13,
        _ => c as u32,
    }
}

// An escape that spells a character, or else stands for its letter.
fn spelled(code: Option<u32>, letter: char, len: usize) -> Meaning
    requires { 2 ≤ len }
    ensures value { result ≡ spelled code letter len }
    ensures within { result.len ≤ len }
{
    match code {
        Some(code) => Meaning::new(Some(code), len),
        None => Meaning::new(Some(letter as u32), 2),
    }
}

// The number of some hexadecimal digits, if it is that of a character or of a unit.
fn hex_number(digits: &[char]) -> Option<u32>
    ensures value { result ≡ hex_from 0 digits.now }
    ensures fits { IfSome result (λ code. code < 0x110000) }
{
    let mut number = 0;
    for digit in digits {
        number = number * 16 + digit.to_digit(16)?;
        if number > 0x10FFFF {
            return None;
        }
    }
    Some(number)
}

// The number of so many hexadecimal digits at the front.
fn hex_in(count: usize, text: &[char]) -> Option<u32>
    ensures value { result ≡ hex_in count text.now }
    ensures fits { IfSome result (λ code. code < 0x110000) }
    ensures within { OnSome result (count ≤ length text.now) }
{
    if text.len() < count {
        return None;
    }
    hex_number(&text[..count])
}

// An escape by `u`, if `text` stands behind that.
fn unicode(text: &[char]) -> Meaning
    ensures value { result ≡ unicode text.now }
    ensures within { result.len ≤ length text.now + 2 }
    ensures some { 0 < result.len }
    ensures fits { IfSome result.code (λ code. code < 0x110000) }
{
    match text {
        ['{', rest @ ..] => braced(rest),
        _ => spelled(hex_in(4, text), 'u', 6),
    }
}

// An escape by `u{`, if `text` stands behind that.
fn braced(text: &[char]) -> Meaning
    ensures value { result ≡ braced text.now }
    ensures within { result.len ≤ length text.now + 3 }
    ensures some { 0 < result.len }
    ensures fits { IfSome result.code (λ code. code < 0x110000) }
{
    let digits = hex_len(text);
    if digits > 0 && text[digits..].starts_with(&['}']) {
        spelled(hex_number(&text[..digits]), 'u', digits + 4)
    } else {
        Meaning::new(Some('u' as u32), 2)
    }
}

// How many hexadecimal digits are at the front.
fn hex_len(text: &[char]) -> usize
    ensures value { result ≡ prefix_len is_hex text.now }
    ensures within { result ≤ length text.now }
{
    text.iter().take_while(|c| is_hex(**c)).count()
}

fn is_hex(c: char) -> bool
    ensures { result ≡ is_hex c }
{
    c.is_ascii_hexdigit()
}

// The value of a digit.
fn digit(c: char) -> u32
    requires { IsTrue (is_octal c) }
    ensures value { result ≡ digit c }
    ensures fits { result < 8 }
{
    c as u32 - 48
}

// An escape by up to three octal digits, whose number is below 256, if `text` stands behind the
// first.
fn octal(first: char, text: &[char]) -> Meaning
    requires { IsTrue (is_octal first) }
    ensures value { result ≡ octal first text.now }
    ensures within { result.len ≤ length text.now + 2 }
    ensures some { 0 < result.len }
    ensures fits { IfSome result.code (λ code. code < 0x110000) }
{
    let number = digit(first);
    match text {
        [a, b, ..] if number < 4 && is_octal(*a) && is_octal(*b) => {
            Meaning::new(Some((number * 8 + digit(*a)) * 8 + digit(*b)), 4)
        }
        [a, ..] if is_octal(*a) => Meaning::new(Some(number * 8 + digit(*a)), 3),
        _ => Meaning::new(Some(number), 2),
    }
}
