// The words of a range: what stands up to a space, `||` or the end of the text.
ghost use Rattle.std.specs.Prelude.{◌≡◌, ◌<◌, ◌+◌, IfSome, length, option_map};
ghost use Rattle.npm_req.specs.Word.{after_bars, after_word, ends_alternative, ends_part, word};

use crate::front::after_char;

// What follows `||`.
pub(crate) fn after_bars(text: &str) -> Option<&str>
    ensures value { option_map (λ t. t.now) result ≡ after_bars text.now }
    ensures shorter { IfSome result (λ rest. length rest.now < length text.now) }
{
    after_char(after_char(text, '|')?, '|')
}

// Whether an alternative ends where this text follows.
pub(crate) fn ends_alternative(text: &str) -> bool
    ensures { result ≡ ends_alternative text.now }
{
    text.is_empty() || after_bars(text).is_some()
}

// What stands before the first place where a part ends, and the rest.
#[tactic(auto, unfolding(sugar_path::specs::Front::after))]
pub(crate) fn word(text: &str) -> (&str, &str)
    ensures front { result.0.now ≡ word text.now }
    ensures rest { result.1.now ≡ after_word text.now }
    ensures lengths { length result.0.now + length result.1.now ≡ length text.now }
{
    let bytes = text.as_bytes();
    for at in 0..bytes.len() {
        if ends_part(&bytes[at..]) {
            return text.split_at(at);
        }
    }
    (text, "")
}

// Whether a part ends where these bytes follow.
#[tactic(auto, unfolding(sugar_path::specs::Front::after))]
fn ends_part(rest: &[u8]) -> bool
    ensures { result ≡ ends_part rest.now }
{
    match rest {
        [] | [b' ', ..] | [b'|', b'|', ..] => true,
        _ => false,
    }
}
