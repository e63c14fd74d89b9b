// What is wrong with words that are no command.
ghost use Rattle.std.specs.Prelude.{◌≡◌, IfOk, map, string_bytes};
ghost use Rattle.std.specs.Option.{option_copied};
ghost use Rattle.command_help.specs.WrongWords.{command_word, first_at, nearest_command, wrong_words};

use crate::topic::{Topic, command_named};
use std::alloc::{AllocError, Global};
use strsim::levenshtein;

/// The names of the commands, in the order in which help tells them.
pub(crate) const COMMANDS: &[&str] = &[
    "resolve", "session", "graph", "audit", "bundle", "replay", "imports", "generate", "disk",
];

/// What is wrong with words that are no command.
#[derive(Clone, Copy, Debug, PartialEq, Eq)]
pub enum WrongWords {
    /// No command has that name; the nearest name is one or two edits away, if there is one.
    NoCommand { nearest: Option<Topic> },
    /// The words behind a command's name aren't those that it takes.
    BadUse { of: Topic },
}

/// What is wrong with the words behind the program's name, where they are no command: the word that names the command
/// is the first one, or the one behind `help`.
pub fn wrong_words(alloc: Global, words: &[String]) -> Result<WrongWords, AllocError>
    ensures { IfOk result (λ wrong. wrong ≡ wrong_words (map string_bytes words.now)) }
{
    let word = command_word(words);
    match command_named(word) {
        Some(of) => Ok(WrongWords::BadUse { of }),
        None => Ok(WrongWords::NoCommand {
            nearest: nearest_command(alloc, word)?,
        }),
    }
}

// The word that is to name a command.
fn command_word(words: &[String]) -> &str
    ensures { result.now ≡ command_word (map string_bytes words.now) }
{
    match words {
        [] => "",
        [help, word, ..] if help.as_str() == "help" => word.as_str(),
        [word, ..] => word.as_str(),
    }
}

// The command whose name is nearest, at most two edits away; of equally near ones the first.
fn nearest_command(alloc: Global, word: &str) -> Result<Option<Topic>, AllocError>
    ensures { IfOk result (λ command. command ≡ nearest_command word.now) }
{
    let name = match first_at(alloc, COMMANDS, word, 1)? {
        Some(name) => Some(name),
        None => first_at(alloc, COMMANDS, word, 2)?,
    };
    Ok(name.and_then(|name| command_named(name)))
}

// The first of the names that is so many edits away.
fn first_at<'n>(
    alloc: Global,
    names: &[&'n str],
    word: &str,
    edits: usize,
) -> Result<Option<&'n str>, AllocError>
    ensures { IfOk result (λ name. option_copied name ≡ first_at edits word.now (map (λ n. n.now) names.now)) }
{
    for name in names {
        if levenshtein(alloc, word, name)? == edits {
            return Ok(Some(name));
        }
    }
    Ok(None)
}
