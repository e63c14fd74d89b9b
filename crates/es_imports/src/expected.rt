// The forms of imports: what may come next in a form that has begun, and what it imports.
ghost use Rattle.std.specs.Prelude.{◌≡◌};
ghost use Rattle.es_imports.specs.Signs.{mark_sign, sign_of, word_sign};
ghost use Rattle.es_imports.specs.Forms.{
  alias,
  argument,
  begun,
  behind_default,
  behind_export,
  behind_import,
  behind_import_type,
  behind_star,
  bindings,
  ends_argument,
  found,
  goes_on,
  if_wanted,
  in_braces,
  next,
  source,
};

use crate::imports::ImportKind;
use crate::piece::Kind;
use crate::scanner::is;
use crate::sign::{Sign, is_binding, is_word};

// Which import a form makes.
#[derive(Clone, Copy)]
pub(crate) struct Form {
    pub(crate) kind: ImportKind,
    pub(crate) is_type: bool,
}

// What may come next.
#[derive(Clone, Copy)]
pub(crate) enum Expected {
    // No form has begun.
    Nothing,
    // Behind a point.
    Property,
    // Behind `import`, `import type` and `import type from`.
    Import,
    ImportType,
    ImportTypeFrom,
    // Behind the name of a default import, and the comma that follows it.
    Default {
        is_type: bool,
    },
    Bindings {
        is_type: bool,
    },
    // Behind `export` and `export type`.
    Export,
    ExportType,
    // Between braces.
    Braces(Form),
    // Behind `*` and `* as`.
    Star(Form),
    Alias(Form),
    // Where `from` stands, and behind it.
    Source(Form),
    From(Form),
    // Behind `import x =`.
    Equals {
        is_type: bool,
    },
    // Behind a name that is called, behind its parenthesis, and behind a string or template there,
    // which begins at that place.
    Call(Form),
    Argument(Form),
    ArgumentEnd {
        form: Form,
        place: usize,
        len: usize,
    },
}

// A string or template that something is imported by: it begins at that place, and takes so many
// bytes.
#[derive(Clone, Copy)]
pub(crate) struct Found {
    pub(crate) form: Form,
    pub(crate) place: usize,
    pub(crate) len: usize,
}

impl Form {
    ghost use Rattle.std.specs.Prelude.{◌≡◌};
    ghost use Rattle.es_imports.specs.Forms.{form_of};

    fn new(kind: ImportKind, is_type: bool) -> Form
        ensures { result ≡ form_of kind is_type }
    {
        Form { kind, is_type }
    }
}

// What may come behind a token that goes on with no form.
fn begun(sign: Sign) -> Expected
    ensures { result ≡ begun sign }
{
    match sign {
        Sign::Import => Expected::Import,
        Sign::Export => Expected::Export,
        Sign::Require => Expected::Call(Form::new(ImportKind::Require, false)),
        Sign::Dot => Expected::Property,
        _ => Expected::Nothing,
    }
}

// What may come behind a piece where no form has begun. Few pieces begin one, so that each is told by little.
pub(crate) fn begun_by(kind: Kind, text: &[u8]) -> Expected
    ensures { result ≡ begun (sign_of kind text.now) }
{
    match kind {
        Kind::Name => begun_by_name(text),
        Kind::Punctuator => begun_by_mark(text),
        _ => Expected::Nothing,
    }
}

fn begun_by_name(name: &[u8]) -> Expected
    ensures { result ≡ begun (word_sign name.now) }
{
    if is(name, "import") {
        Expected::Import
    } else if is(name, "export") {
        Expected::Export
    } else if is(name, "require") {
        Expected::Call(Form::new(ImportKind::Require, false))
    } else {
        Expected::Nothing
    }
}

fn begun_by_mark(mark: &[u8]) -> Expected
    ensures { result ≡ begun (mark_sign mark.now) }
{
    match mark {
        [b'.'] => Expected::Property,
        [b'?', b'.'] => Expected::Property,
        _ => Expected::Nothing,
    }
}

fn behind_import(sign: Sign) -> Option<Expected>
    ensures { result ≡ behind_import sign }
{
    match sign {
        Sign::Type => Some(Expected::ImportType),
        Sign::Open => Some(Expected::Argument(Form::new(ImportKind::Dynamic, false))),
        Sign::OpenBrace => Some(Expected::Braces(Form::new(ImportKind::Static, false))),
        Sign::Star => Some(Expected::Star(Form::new(ImportKind::Static, false))),
        _ if is_binding(sign) => Some(Expected::Default { is_type: false }),
        _ => None,
    }
}

// `type` may be the name of a default import.
fn behind_import_type(sign: Sign) -> Option<Expected>
    ensures { result ≡ behind_import_type sign }
{
    match sign {
        Sign::From => Some(Expected::ImportTypeFrom),
        Sign::Comma => Some(Expected::Bindings { is_type: false }),
        Sign::Equals => Some(Expected::Equals { is_type: false }),
        Sign::OpenBrace => Some(Expected::Braces(Form::new(ImportKind::Static, true))),
        Sign::Star => Some(Expected::Star(Form::new(ImportKind::Static, true))),
        _ if is_binding(sign) => Some(Expected::Default { is_type: true }),
        _ => None,
    }
}

fn behind_default(is_type: bool, sign: Sign) -> Option<Expected>
    ensures { result ≡ behind_default is_type sign }
{
    match sign {
        Sign::Comma => Some(Expected::Bindings { is_type }),
        Sign::From => Some(Expected::From(Form::new(ImportKind::Static, is_type))),
        Sign::Equals => Some(Expected::Equals { is_type }),
        _ => None,
    }
}

// Names between braces, or a star.
fn bindings(form: Form, sign: Sign) -> Option<Expected>
    ensures { result ≡ bindings form sign }
{
    match sign {
        Sign::OpenBrace => Some(Expected::Braces(form)),
        Sign::Star => Some(Expected::Star(form)),
        _ => None,
    }
}

fn behind_export(sign: Sign) -> Option<Expected>
    ensures { result ≡ behind_export sign }
{
    match sign {
        Sign::Type => Some(Expected::ExportType),
        _ => bindings(Form::new(ImportKind::Export, false), sign),
    }
}

fn in_braces(form: Form, sign: Sign) -> Option<Expected>
    ensures { result ≡ in_braces form sign }
{
    match sign {
        Sign::CloseBrace => Some(Expected::Source(form)),
        Sign::Comma | Sign::StringLiteral => Some(Expected::Braces(form)),
        _ if is_word(sign) => Some(Expected::Braces(form)),
        _ => None,
    }
}

fn behind_star(form: Form, sign: Sign) -> Option<Expected>
    ensures { result ≡ behind_star form sign }
{
    match sign {
        Sign::As => Some(Expected::Alias(form)),
        Sign::From => Some(Expected::From(form)),
        _ => None,
    }
}

fn alias(form: Form, sign: Sign) -> Option<Expected>
    ensures { result ≡ alias form sign }
{
    match sign {
        Sign::StringLiteral => Some(Expected::Source(form)),
        _ if is_word(sign) => Some(Expected::Source(form)),
        _ => None,
    }
}

// The argument of a call, which begins at that place.
fn argument(form: Form, sign: Sign, place: usize, len: usize) -> Option<Expected>
    ensures { result ≡ argument form sign place len }
{
    match sign {
        Sign::StringLiteral | Sign::Template => Some(Expected::ArgumentEnd { form, place, len }),
        _ => None,
    }
}

// That, where the token is the one that is wanted.
fn behind(is_wanted: bool, expected: Expected) -> Option<Expected>
    ensures { result ≡ if_wanted is_wanted expected }
{
    if is_wanted { Some(expected) } else { None }
}

// What may come next where the token goes on with the form that has begun.
fn goes_on(expected: Expected, sign: Sign, place: usize, len: usize) -> Option<Expected>
    ensures { result ≡ goes_on expected sign place len }
{
    match expected {
        Expected::Nothing => None,
        Expected::Property => behind(is_word(sign), Expected::Nothing),
        Expected::Import => behind_import(sign),
        Expected::ImportType => behind_import_type(sign),
        Expected::ImportTypeFrom => behind(
            sign == Sign::From,
            Expected::From(Form::new(ImportKind::Static, true)),
        ),
        Expected::Default { is_type } => behind_default(is_type, sign),
        Expected::Bindings { is_type } => bindings(Form::new(ImportKind::Static, is_type), sign),
        Expected::Export => behind_export(sign),
        Expected::ExportType => bindings(Form::new(ImportKind::Export, true), sign),
        Expected::Braces(form) => in_braces(form, sign),
        Expected::Star(form) => behind_star(form, sign),
        Expected::Alias(form) => alias(form, sign),
        Expected::Source(form) => behind(sign == Sign::From, Expected::From(form)),
        Expected::From(_) => None,
        Expected::Equals { is_type } => behind(
            sign == Sign::Require,
            Expected::Call(Form::new(ImportKind::ImportEquals, is_type)),
        ),
        Expected::Call(form) => behind(sign == Sign::Open, Expected::Argument(form)),
        Expected::Argument(form) => argument(form, sign, place, len),
        Expected::ArgumentEnd { .. } => None,
    }
}

// What may come behind a piece that begins at that place, and takes so many bytes: white space
// and comments change nothing.
pub(crate) fn next(expected: Expected, sign: Sign, place: usize, len: usize) -> Expected
    ensures { result ≡ next expected sign place len }
{
    if sign == Sign::Blank {
        return expected;
    }
    match goes_on(expected, sign, place, len) {
        Some(expected) => expected,
        None => begun(sign),
    }
}

// Whether the argument of a call ends here: `import` has others behind it.
fn ends_argument(form: Form, sign: Sign) -> bool
    ensures { result ≡ ends_argument form sign }
{
    match sign {
        Sign::Close => true,
        Sign::Comma => form.kind == ImportKind::Dynamic,
        _ => false,
    }
}

// What the piece is found to import.
pub(crate) fn find(expected: Expected, sign: Sign, place: usize, len: usize) -> Option<Found>
    ensures { result ≡ found expected sign place len }
{
    match expected {
        Expected::Import | Expected::ImportTypeFrom => {
            source(Form::new(ImportKind::Static, false), sign, place, len)
        }
        Expected::From(form) => source(form, sign, place, len),
        Expected::ArgumentEnd { form, place, len } if ends_argument(form, sign) => {
            Some(Found { form, place, len })
        }
        _ => None,
    }
}

// A string where the source of a form stands.
fn source(form: Form, sign: Sign, place: usize, len: usize) -> Option<Found>
    ensures { result ≡ source form sign place len }
{
    if sign == Sign::StringLiteral {
        Some(Found { form, place, len })
    } else {
        None
    }
}
