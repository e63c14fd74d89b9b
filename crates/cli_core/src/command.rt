// The commands, by the words that ask for them.
ghost use Rattle.std.specs.Prelude.{◌≡◌};
ghost use Rattle.cli_core.specs.Command.{
  asked,
  begins_above_zero,
  command_of_one,
  command_of_two,
  size_of,
};
ghost use Rattle.cli_core.specs.Forms.{form_of};

use crate::disk_words::disk_request;
use crate::document_kind::DocumentKind;
use disk_report::{DiskRequest, OutcomeForm};

/// What the program is asked to do, with what the words say of it.
#[derive(Debug, Drop)]
pub enum Command<'w> {
    /// Reads one document of a kind, and writes the report on it: `resolve`, `session`, `graph`, `audit`, `bundle`.
    Report(DocumentKind),
    /// Reads a replay document, and writes the lines of its bundle's verdicts.
    Replay,
    /// Reads a source text, and writes a line for each of its imports; elements of JSX are read, or not.
    Imports { jsx: bool },
    /// Resolves the generated project of so many packages, and writes the counts of its outcomes.
    Generate { size: u16 },
    /// Resolves requests over the disk, and writes what is told of them.
    Disk(DiskRequest<'w>),
}

/// The most packages that a generated project has.
pub const LARGEST: u16 = 1000;

/// The command that the words behind the program's name ask for, and `None` where they are none.
pub fn command_of(words: &[String]) -> Option<Command<'_>>
    ensures { result ≡ asked words.now }
{
    match words {
        [word] => command_of_one(word.as_str()),
        [word, next] => command_of_two(word.as_str(), next.as_str()),
        words => disk_request(words).map(Command::Disk),
    }
}

// The command of one word.
fn command_of_one(word: &str) -> Option<Command<'_>>
    ensures { result ≡ command_of_one word.now }
{
    match word {
        "resolve" => Some(Command::Report(DocumentKind::Requests(OutcomeForm::Line))),
        "session" => Some(Command::Report(DocumentKind::Steps)),
        "graph" => Some(Command::Report(DocumentKind::Graphs)),
        "audit" => Some(Command::Report(DocumentKind::Audit)),
        "bundle" => Some(Command::Report(DocumentKind::Bundle)),
        "replay" => Some(Command::Replay),
        "imports" => Some(Command::Imports { jsx: false }),
        _ => None,
    }
}

// The command of two words.
fn command_of_two<'w>(word: &'w str, next: &'w str) -> Option<Command<'w>>
    ensures { result ≡ command_of_two word.now next.now }
{
    match word {
        "resolve" => Some(Command::Report(DocumentKind::Requests(form_of(next)?))),
        "generate" => Some(Command::Generate {
            size: size_in(next)?,
        }),
        "imports" if next == "--jsx" => Some(Command::Imports { jsx: true }),
        _ => None,
    }
}

// The form in which outcomes are told, as a word names it.
pub(crate) fn form_of(word: &str) -> Option<OutcomeForm>
    ensures { result ≡ form_of word.now }
{
    match word {
        "--trail" => Some(OutcomeForm::LineWithTrail),
        "--explain" => Some(OutcomeForm::Text),
        _ => None,
    }
}

// The size that a word gives: a number from 1 to the largest one, without sign and without a zero in front.
fn size_in(word: &str) -> Option<u16>
    ensures { result ≡ size_of word.now }
{
    if !begins_above_zero(word.as_bytes()) {
        return None;
    }
    let Ok(size) = word.parse::<u16>() else {
        return None;
    };
    if size <= LARGEST { Some(size) } else { None }
}

fn begins_above_zero(word: &[u8]) -> bool
    ensures { result ≡ begins_above_zero word.now }
{
    matches!(word, [b'1'..=b'9', ..])
}
