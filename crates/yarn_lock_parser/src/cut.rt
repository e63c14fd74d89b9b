// Where a text is cut: behind a line of only blanks.
ghost use Rattle.std.specs.Prelude.{◌≡◌, option_map};
ghost use Rattle.yarn_lock_parser.specs.Cut.{after_empty_line, after_first_empty_line, entry_text};

use crate::byte_set::ByteSet;
use crate::front::{after_line_end, front, line_at, run};

#[tactic(auto, unfolding(crate::specs::Cut::after_empty_line))]
fn after_empty_line(text: &str) -> Option<&str>
    ensures { option_map (λ t. t.now) result ≡ after_empty_line text.now }
{
    let (_, end) = run(ByteSet::Blank, text);
    after_line_end(end)
}

/// What follows the first line of only blanks. The text's own front counts as the beginning of a line.
pub(crate) fn after_first_empty_line(text: &str) -> Option<&str>
    ensures { option_map (λ t. t.now) result ≡ after_first_empty_line text.now }
{
    let mut rest = text;
    loop {
        if let Some(behind) = after_empty_line(rest) {
            return Some(behind);
        }
        match line_at(rest) {
            None => return None,
            Some((_, behind)) => rest = behind,
        }
    }
}

/// The text of the next entry, and what follows it.
#[tactic(auto, unfolding(crate::specs::Cut::entry_text))]
pub(crate) fn entry_text(text: &str) -> Option<(&str, &str)>
    ensures { option_map (λ x. (x.0.now, x.1.now)) result ≡ entry_text text.now }
{
    if text.is_empty() {
        return None;
    }
    match after_first_empty_line(text) {
        None => Some((text, "")),
        Some(rest) => Some((front(text, rest), rest)),
    }
}
