// The sets of bytes that the parts of a lock file are runs of.
ghost use Rattle.std.specs.Prelude.{◌≡◌};
ghost use Rattle.yarn_lock_parser.specs.ByteSet.{is_version_byte};
ghost use Rattle.yarn_lock_parser.specs.Given.{has};

/// A set of bytes. A byte of a character beyond ASCII is in the set exactly where all such bytes are.
#[derive(Clone, Copy)]
pub(crate) enum ByteSet {
    Blank,
    WhiteSpace,
    Digit,
    Version,
    NotLineEnd,
    NotColon,
    NotAt,
    Descriptor,
    DependencyName,
    Unquoted,
}

impl ByteSet {
    pub(crate) fn has(self, byte: u8) -> bool
        ensures { result ≡ has self byte }
    {
        match self {
            ByteSet::Blank => byte == b' ' || byte == b'\t',
            ByteSet::WhiteSpace => byte == b' ' || byte == b'\t' || byte == b'\r' || byte == b'\n',
            ByteSet::Digit => byte.is_ascii_digit(),
            ByteSet::Version => is_version_byte(byte),
            ByteSet::NotLineEnd => byte != b'\r' && byte != b'\n',
            ByteSet::NotColon => byte != b':',
            ByteSet::NotAt => byte != b'@',
            ByteSet::Descriptor => byte != b',' && byte != b'"' && byte != b'\n',
            ByteSet::DependencyName => byte != b':' && byte != b' ',
            ByteSet::Unquoted => byte != b'"' && byte != b'\r' && byte != b'\n',
        }
    }
}

fn is_version_byte(byte: u8) -> bool
    ensures { result ≡ is_version_byte byte }
{
    match byte {
        b'a'..=b'z' | b'A'..=b'Z' | b'0'..=b'9' => true,
        b'.' | b'-' | b'+' | b'@' | b':' | b'/' | b'#' => true,
        b'%' | b'!' | b'~' | b'*' | b'\'' | b'(' | b')' => true,
        _ => false,
    }
}
