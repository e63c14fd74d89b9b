// What help is asked about.
ghost use Rattle.std.specs.Prelude.{◌≡◌, map, string_bytes};
ghost use Rattle.command_help.specs.Topics.{command_named, topic_of, topic_of_one, topic_of_two};

/// What help is about: the program, its version, or one of its commands.
#[derive(Clone, Copy, Debug, PartialEq, Eq)]
pub enum Topic {
    Program,
    Version,
    Resolve,
    Session,
    Graph,
    Audit,
    Bundle,
    Replay,
    Imports,
    Generate,
    Disk,
}

/// The topic that the words behind the program's name ask help about, and `None` where they ask for none. No words,
/// `help` and `--help` ask about the program, `--version` about its version, and `help COMMAND` or `COMMAND --help`
/// about a command.
pub fn topic_of(words: &[String]) -> Option<Topic>
    ensures { result ≡ topic_of (map string_bytes words.now) }
{
    match words {
        [] => Some(Topic::Program),
        [word] => topic_of_one(word.as_str()),
        [word, next] => topic_of_two(word.as_str(), next.as_str()),
        _ => None,
    }
}

fn topic_of_one(word: &str) -> Option<Topic>
    ensures { result ≡ topic_of_one word.now }
{
    match word {
        "help" | "--help" => Some(Topic::Program),
        "--version" => Some(Topic::Version),
        _ => None,
    }
}

fn topic_of_two(word: &str, next: &str) -> Option<Topic>
    ensures { result ≡ topic_of_two word.now next.now }
{
    if word == "help" {
        command_named(next)
    } else if next == "--help" {
        command_named(word)
    } else {
        None
    }
}

// The command of a name.
pub(crate) fn command_named(word: &str) -> Option<Topic>
    ensures { result ≡ command_named word.now }
{
    match word {
        "resolve" => Some(Topic::Resolve),
        "session" => Some(Topic::Session),
        "graph" => Some(Topic::Graph),
        "audit" => Some(Topic::Audit),
        "bundle" => Some(Topic::Bundle),
        "replay" => Some(Topic::Replay),
        "imports" => Some(Topic::Imports),
        "generate" => Some(Topic::Generate),
        "disk" => Some(Topic::Disk),
        _ => None,
    }
}
