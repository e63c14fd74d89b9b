// Punctuators at a text's front.
ghost use Rattle.std.specs.Prelude.{◌≡◌, ◌≤◌, ◌+◌, length};
ghost use Rattle.es_imports.specs.Punctuators.{
  assigned_len,
  doubled_len,
  equals_len,
  greater_len,
  is_single,
  not_len,
  point_len,
  punctuator_len,
  question_len,
  repeated_len,
  stands_alone,
};

// How many bytes the longest punctuator at the front takes, and 0 where none is.
pub(crate) fn punctuator_len(text: &[u8]) -> usize
    ensures value { result ≡ punctuator_len text.now }
    ensures within { result ≤ length text.now }
{
    match text {
        [] => 0,
        [c, rest @ ..] => match *c {
            b'.' => point_len(rest),
            b'=' => equals_len(rest),
            b'!' => not_len(rest),
            b'+' | b'-' => repeated_len(*c, rest),
            b'*' | b'&' | b'|' => doubled_len(*c, rest),
            b'/' | b'%' | b'^' => assigned_len(1, rest),
            b'<' => doubled_len(*c, rest),
            b'>' => greater_len(rest),
            b'?' => question_len(rest),
            c if is_single(c) => 1,
            _ => 0,
        },
    }
}

// Brackets and marks that begin no longer punctuator.
fn is_single(c: u8) -> bool
    ensures { result ≡ is_single c }
{
    matches!(
        c,
        b'(' | b')' | b'{' | b'}' | b'[' | b']' | b',' | b';' | b':' | b'~' | b'@'
    )
}

// Marks that begin nothing longer in code, and go on with nothing.
#[inline(always)]
pub(crate) fn stands_alone(c: u8) -> bool
    ensures { result ≡ stands_alone c }
{
    matches!(c, b'(' | b')' | b'{' | b'[' | b']' | b',' | b';' | b':')
}

// So many bytes, and one more if `=` follows.
fn assigned_len(len: usize, rest: &[u8]) -> usize
    requires { len ≤ 3 }
    ensures value { result ≡ assigned_len len rest.now }
    ensures within { result ≤ len + length rest.now }
{
    if rest.starts_with(b"=") { len + 1 } else { len }
}

// `.` and `...`.
fn point_len(rest: &[u8]) -> usize
    ensures value { result ≡ point_len rest.now }
    ensures within { result ≤ length rest.now + 1 }
{
    if rest.starts_with(b"..") { 3 } else { 1 }
}

// `=`, `=>`, `==` and `===`.
fn equals_len(rest: &[u8]) -> usize
    ensures value { result ≡ equals_len rest.now }
    ensures within { result ≤ length rest.now + 1 }
{
    match rest {
        [b'>', ..] => 2,
        [b'=', rest @ ..] => assigned_len(2, rest),
        _ => 1,
    }
}

// `!`, `!=` and `!==`.
fn not_len(rest: &[u8]) -> usize
    ensures value { result ≡ not_len rest.now }
    ensures within { result ≤ length rest.now + 1 }
{
    match rest {
        [b'=', rest @ ..] => assigned_len(2, rest),
        _ => 1,
    }
}

// A mark, the mark twice, or the mark with `=`.
fn repeated_len(mark: u8, rest: &[u8]) -> usize
    ensures value { result ≡ repeated_len mark rest.now }
    ensures within { result ≤ length rest.now + 1 }
{
    match rest {
        [c, ..] if *c == mark => 2,
        _ => assigned_len(1, rest),
    }
}

// A mark, or the mark twice, and each of them with `=`.
fn doubled_len(mark: u8, rest: &[u8]) -> usize
    ensures value { result ≡ doubled_len mark rest.now }
    ensures within { result ≤ length rest.now + 1 }
{
    match rest {
        [c, rest @ ..] if *c == mark => assigned_len(2, rest),
        _ => assigned_len(1, rest),
    }
}

// `>`, `>>` and `>>>`, and each of them with `=`.
fn greater_len(rest: &[u8]) -> usize
    ensures value { result ≡ greater_len rest.now }
    ensures within { result ≤ length rest.now + 1 }
{
    match rest {
        [b'>', b'>', rest @ ..] => assigned_len(3, rest),
        [b'>', rest @ ..] => assigned_len(2, rest),
        _ => assigned_len(1, rest),
    }
}

// `?`, `??`, `??=` and `?.`, which no digit follows.
fn question_len(rest: &[u8]) -> usize
    ensures value { result ≡ question_len rest.now }
    ensures within { result ≤ length rest.now + 1 }
{
    match rest {
        [b'?', rest @ ..] => assigned_len(2, rest),
        [b'.', c, ..] if c.is_ascii_digit() => 1,
        [b'.', ..] => 2,
        _ => 1,
    }
}
