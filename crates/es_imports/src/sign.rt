// What the forms of imports tell tokens apart by.
ghost use Rattle.std.specs.Prelude.{◌≡◌};
ghost use Rattle.es_imports.specs.Signs.{is_binding, is_word, mark_sign, sign_of, word_sign};

use crate::piece::Kind;
use crate::scanner::is;

// What a piece is in a form of import.
#[derive(Clone, Copy, PartialEq, Eq)]
pub(crate) enum Sign {
    // `import`, `export`, `require`, `from`, `as` and `type`, and any other name.
    Import,
    Export,
    Require,
    From,
    As,
    Type,
    Name,
    StringLiteral,
    Template,
    // `(`, `)`, `{`, `}`, `,`, `*` and `=`.
    Open,
    Close,
    OpenBrace,
    CloseBrace,
    Comma,
    Star,
    Equals,
    // `.` and `?.`.
    Dot,
    // Any other token.
    Other,
    // White space or a comment.
    Blank,
}

// What a piece of that kind with that text is.
pub(crate) fn sign_of(kind: Kind, text: &[u8]) -> Sign
    ensures { result ≡ sign_of kind text.now }
{
    match kind {
        Kind::WhiteSpace | Kind::Comment => Sign::Blank,
        Kind::Name => word_sign(text),
        Kind::StringLiteral => Sign::StringLiteral,
        Kind::Template => Sign::Template,
        Kind::Punctuator => mark_sign(text),
        _ => Sign::Other,
    }
}

fn word_sign(name: &[u8]) -> Sign
    ensures { result ≡ word_sign name.now }
{
    if is(name, "import") {
        Sign::Import
    } else if is(name, "export") {
        Sign::Export
    } else if is(name, "require") {
        Sign::Require
    } else if is(name, "from") {
        Sign::From
    } else if is(name, "as") {
        Sign::As
    } else if is(name, "type") {
        Sign::Type
    } else {
        Sign::Name
    }
}

fn mark_sign(mark: &[u8]) -> Sign
    ensures { result ≡ mark_sign mark.now }
{
    match mark {
        [b'.'] => Sign::Dot,
        [b'?', b'.'] => Sign::Dot,
        [b'('] => Sign::Open,
        [b')'] => Sign::Close,
        [b'{'] => Sign::OpenBrace,
        [b'}'] => Sign::CloseBrace,
        [b','] => Sign::Comma,
        [b'*'] => Sign::Star,
        [b'='] => Sign::Equals,
        _ => Sign::Other,
    }
}

// A name that something may be bound to.
pub(crate) fn is_binding(sign: Sign) -> bool
    ensures { result ≡ is_binding sign }
{
    matches!(
        sign,
        Sign::Require | Sign::From | Sign::As | Sign::Type | Sign::Name
    )
}

// Any name.
pub(crate) fn is_word(sign: Sign) -> bool
    ensures { result ≡ is_word sign }
{
    is_binding(sign) || matches!(sign, Sign::Import | Sign::Export)
}
