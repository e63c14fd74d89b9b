// Why a source text is refused.
ghost use Rattle.std.specs.Prelude.{◌≡◌, ◌++◌, ◌∷◌, IfOk, codes, decimal, string_bytes};
ghost use Rattle.imports_report.specs.Cause.{name_of, source_cause_line};

use es_imports::Cause;
use std::alloc::{AllocError, Global};

/// Why a source text is refused, with how many bytes stand before that place.
#[derive(Clone, Copy, Debug, PartialEq, Eq)]
pub enum SourceCause {
    /// The bytes from there on aren't UTF-8.
    NotUtf8 { place: usize },
    /// No token is there.
    NoToken { place: usize, cause: Cause },
}

/// Why a source text gives nothing.
#[derive(Clone, Copy, Debug, PartialEq, Eq)]
pub enum SourceError {
    Refused(SourceCause),
    NoMemory,
}

impl From<AllocError> for SourceError {
    ghost use Rattle.std.specs.Prelude.{◌≡◌};
    ghost use Rattle.imports_report.specs.declared.cause.SourceError.TheVariants.{NoMemory};

    ghost from_gives = { λ _ e. e ≡ NoMemory };

    fn from(_: AllocError) -> Self {
        SourceError::NoMemory
    }
}

// A cause in a word.
fn name_of(cause: Cause) -> &'static str
    ensures { result.now ≡ name_of cause }
{
    match cause {
        Cause::Comment => "comment",
        Cause::StringLiteral => "string",
        Cause::Template => "template",
        Cause::RegularExpression => "regular-expression",
        Cause::Character => "character",
    }
}

/// The line of a source text that is refused, with its line end.
#[tactic(auto, unfolding(crate::specs::Cause::source_cause_line))]
pub fn line_of_source_cause(alloc: Global, cause: SourceCause) -> Result<String, AllocError>
    ensures { IfOk result (λ line. string_bytes line ≡ source_cause_line cause) }
{
    match cause {
        SourceCause::NotUtf8 { place } => format!(in alloc; "refused: not-utf8 {place}\n"),
        SourceCause::NoToken { place, cause } => {
            let name = name_of(cause);
            format!(in alloc; "refused: {name} {place}\n")
        }
    }
}
