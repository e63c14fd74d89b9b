// The lines of an entry that say one thing: its version, where it was found, and what its files hash to. Each is read
// from behind the blanks that it begins with.
ghost use Rattle.std.specs.Prelude.{◌≡◌, ◌∷◌, [], option_map};
ghost use Rattle.yarn_lock_parser.specs.Front.{after_optional};
ghost use Rattle.yarn_lock_parser.specs.Items.{at_value, integrity_at, resolved_at, version_at};

use crate::byte_set::ByteSet;
use crate::front::{after_blanks, after_line_end, after_optional, run, some_run};
use sugar_path::after;

/// The version, and what follows its line.
#[tactic(auto, unfolding(crate::specs::Items::version_at))]
pub(crate) fn version_at(text: &str) -> Option<(&str, &str)>
    ensures { option_map (λ x. (x.0.now, x.1.now)) result ≡ version_at text.now }
{
    let value = at_value(after("version", at_key(text))?)?;
    let (version, end) = run(ByteSet::Version, after_optional("\"", value));
    let rest = after_line_end(after_optional("\"", end))?;
    Some((version, rest))
}

/// The checksum, and what follows it.
#[tactic(auto, unfolding(crate::specs::Items::integrity_at))]
pub(crate) fn integrity_at(text: &str) -> Option<(&str, &str)>
    ensures { option_map (λ x. (x.0.now, x.1.now)) result ≡ integrity_at text.now }
{
    let key = at_key(text);
    let end = after("checksum", key).or(after("integrity", key))?;
    let value = at_value(end)?;
    Some(run(ByteSet::Unquoted, after_optional("\"", value)))
}

/// The resolution, and what follows its line.
#[tactic(auto, unfolding(crate::specs::Items::resolved_at))]
pub(crate) fn resolved_at(text: &str) -> Option<(&str, &str)>
    ensures { option_map (λ x. (x.0.now, x.1.now)) result ≡ resolved_at text.now }
{
    let key = at_key(text);
    let end = after("resolved", key).or(after("resolution", key))?;
    let quote = after("\"", at_value(end)?)?;
    let (resolved, end) = some_run(ByteSet::Unquoted, quote)?;
    let rest = after_line_end(after("\"", end)?)?;
    Some((resolved, rest))
}

// What follows a quote that may open a key.
fn at_key(text: &str) -> &str
    ensures { result.now ≡ after_optional (34 ∷ []) text.now }
{
    after_optional("\"", text)
}

// What follows a quote that may close a key, a colon that may stand there, and blanks.
fn at_value(text: &str) -> Option<&str>
    ensures { option_map (λ t. t.now) result ≡ at_value text.now }
{
    after_blanks(after_optional(":", after_optional("\"", text)))
}
