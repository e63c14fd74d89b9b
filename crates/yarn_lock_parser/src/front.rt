// What a text's front is, and what follows it.
ghost use Rattle.std.specs.Prelude.{◌≡◌, option_map};
ghost use Rattle.std.specs.List.{prefix_len};
ghost use Rattle.yarn_lock_parser.specs.Given.{has};
ghost use Rattle.sugar_path.specs.Front.{after, before};
ghost use Rattle.yarn_lock_parser.specs.Front.{
  after_optional,
  after_blanks,
  after_line_end,
  before_optional,
  front,
  IsRest,
  line_at,
  quoted_at,
  run,
  some_run,
};

use crate::byte_set::ByteSet;
use sugar_path::after;

/// What follows a word that may stand at the front.
pub(crate) fn after_optional<'a>(word: &str, text: &'a str) -> &'a str
    ensures { result.now ≡ after_optional word.now text.now }
{
    after(word, text).unwrap_or(text)
}

/// What stands before a word at the end.
pub(crate) fn before<'a>(word: &str, text: &'a str) -> Option<&'a str>
    ensures { option_map (λ t. t.now) result ≡ before word.now text.now }
{
    text.strip_suffix(word)
}

/// What stands before a word that may stand at the end.
pub(crate) fn before_optional<'a>(word: &str, text: &'a str) -> &'a str
    ensures { result.now ≡ before_optional word.now text.now }
{
    before(word, text).unwrap_or(text)
}

/// The longest run of a set's bytes at the front, and what follows it.
#[tactic(auto, unfolding(crate::specs::Front::run))]
pub(crate) fn run<'a>(set: ByteSet, text: &'a str) -> (&'a str, &'a str)
    ensures { (result.0.now, result.1.now) ≡ run (has set) text.now }
{
    text.split_at(run_len(set, text))
}

fn run_len(set: ByteSet, text: &str) -> usize
    ensures { result ≡ prefix_len (has set) text.now }
{
    text.bytes().take_while(|b| set.has(*b)).count()
}

/// The longest run of a set's bytes at the front, where it isn't empty, and what follows it.
#[tactic(auto, unfolding(crate::specs::Front::some_run))]
pub(crate) fn some_run<'a>(set: ByteSet, text: &'a str) -> Option<(&'a str, &'a str)>
    ensures { option_map (λ x. (x.0.now, x.1.now)) result ≡ some_run (has set) text.now }
{
    let (front, rest) = run(set, text);
    if front.is_empty() {
        None
    } else {
        Some((front, rest))
    }
}

/// What follows one blank or more.
pub(crate) fn after_blanks(text: &str) -> Option<&str>
    ensures { option_map (λ t. t.now) result ≡ after_blanks text.now }
{
    let (_, rest) = some_run(ByteSet::Blank, text)?;
    Some(rest)
}

/// What follows a line end.
#[tactic(auto, unfolding(crate::specs::Front::after_line_end))]
pub(crate) fn after_line_end(text: &str) -> Option<&str>
    ensures { option_map (λ t. t.now) result ≡ after_line_end text.now }
{
    match after("\n", text) {
        Some(rest) => Some(rest),
        None => after("\r\n", text),
    }
}

/// A line, without its line feed, and what follows the line feed.
pub(crate) fn line_at(text: &str) -> Option<(&str, &str)>
    ensures { option_map (λ x. (x.0.now, x.1.now)) result ≡ line_at text.now }
{
    text.split_once('\n')
}

/// What stands between a quote at the front and the next quote, and what follows that one.
pub(crate) fn quoted_at(text: &str) -> Option<(&str, &str)>
    ensures { option_map (λ x. (x.0.now, x.1.now)) result ≡ quoted_at text.now }
{
    let inner = after("\"", text)?;
    inner.split_once('"')
}

/// The front of a text, up to a rest of it.
#[tactic(auto, unfolding(crate::specs::Front::front))]
pub(crate) fn front<'a>(text: &'a str, rest: &str) -> &'a str
    requires { IsRest text.now rest.now }
    ensures { result.now ≡ front text.now rest.now }
{
    let (before, _) = text.split_at(text.len() - rest.len());
    before
}
