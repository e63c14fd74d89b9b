// White space and line ends.
ghost use Rattle.std.specs.Prelude.{◌≡◌, ◌≤◌, length};
ghost use Rattle.es_imports.specs.Space.{
  begins_line_end,
  has_line_end,
  is_ascii_space,
  is_wide_space,
  space_part,
  wide_space_len,
};

// How many bytes the character at the front takes, if it is white space or a line end, and else 0.
#[inline(always)]
pub(crate) fn space_part(text: &[u8]) -> usize
    ensures value { result ≡ space_part text.now }
    ensures within { result ≤ length text.now }
{
    match text {
        [] => 0,
        [c, ..] if *c < 0x80 => { if is_ascii_space(*c) { 1 } else { 0 } }
        _ => wide_space_len(text),
    }
}

#[inline(always)]
fn is_ascii_space(c: u8) -> bool
    ensures { result ≡ is_ascii_space c }
{
    c == b' ' || c >= 9 && c <= 13
}

// White space and line ends beyond ASCII.
#[inline(never)]
pub(crate) fn wide_space_len(text: &[u8]) -> usize
    ensures value { result ≡ wide_space_len text.now }
    ensures within { result ≤ length text.now }
{
    match text {
        [0xC2, 0xA0, ..] => 2,
        [a, b, c, ..] if is_wide_space(*a, *b, *c) => 3,
        _ => 0,
    }
}

fn is_wide_space(a: u8, b: u8, c: u8) -> bool
    ensures { result ≡ is_wide_space a b c }
{
    match (a, b) {
        (0xE1, 0x9A) => c == 0x80,
        (0xE2, 0x80) => c <= 0x8A || c == 0xA8 || c == 0xA9 || c == 0xAF,
        (0xE2, 0x81) => c == 0x9F,
        (0xE3, 0x80) => c == 0x80,
        (0xEF, 0xBB) => c == 0xBF,
        _ => false,
    }
}

// Whether a line ends at the front.
#[inline(always)]
pub(crate) fn begins_line_end(text: &[u8]) -> bool
    ensures { result ≡ begins_line_end text.now }
{
    match text {
        [] => false,
        [c, ..] if *c < 0x80 => *c == b'\n' || *c == b'\r',
        _ => text.starts_with(b"\xE2\x80\xA8") || text.starts_with(b"\xE2\x80\xA9"),
    }
}

// Whether a line ends within white space or a comment.
pub(crate) fn has_line_end(text: &[u8]) -> bool
    ensures { result ≡ has_line_end text.now }
{
    text.iter().any(|c| *c == b'\n' || *c == b'\r')
}
