// The metadata that lock files have from version 2 on.
ghost use Rattle.std.specs.Prelude.{◌≡◌, ◌<◌, length, option_map, true};
ghost use Rattle.std.specs.Str.{all_ascii_digits};
ghost use Rattle.yarn_lock_parser.specs.Metadata.{
  after_compression,
  cache_key,
  metadata_at,
  number_at,
  version_line,
  version_number,
};

use crate::byte_set::ByteSet;
use crate::cut::after_first_empty_line;
use crate::front::{after_blanks, after_line_end, front, run, some_run};
use std::marker::Model;
use sugar_path::after;

#[derive(Drop)]
pub(crate) struct Metadata<'a> {
    pub(crate) version: u8,
    pub(crate) cache_key: Option<&'a str>,
}

impl<'a> Model for Metadata<'a> {
    ghost use Rattle.yarn_lock_parser.specs.Metadata as specs;
    ghost use Rattle.std.specs.Prelude.{option_map};

    ghost Value = { specs.Metadata };

    ghost view = { λ m. record {
      version = m.version;
      cache_key = option_map (λ t. t.now) m.cache_key;
    } };
}

/// The metadata, and what follows them and any white space.
#[tactic(auto, unfolding(crate::specs::Metadata::metadata_at))]
pub(crate) fn metadata_at(text: &str) -> Option<(Metadata<'_>, &str)>
    ensures { option_map (λ x. (x.0, x.1.now)) result ≡ metadata_at text.now }
{
    let (version, rest) = version_line(text)?;
    let (cache_key, rest) = match cache_key(rest) {
        Some((key, behind)) => (Some(key), behind),
        None => (None, rest),
    };
    let (_, rest) = run(ByteSet::WhiteSpace, after_first_empty_line(rest)?);
    Some((Metadata { version, cache_key }, rest))
}

#[tactic(auto, unfolding(crate::specs::Metadata::version_line))]
fn version_line(text: &str) -> Option<(u8, &str)>
    ensures { option_map (λ x. (x.0, x.1.now)) result ≡ version_line text.now }
{
    let second = after_line_end(after("__metadata:", text)?)?;
    let value = after("version: ", after_blanks(second)?)?;
    let (version, end) = number_at(value)?;
    let rest = after_line_end(end)?;
    Some((version, rest))
}

#[tactic(auto, unfolding(crate::specs::Metadata::number_at))]
fn number_at(text: &str) -> Option<(u8, &str)>
    ensures { option_map (λ x. (x.0, x.1.now)) result ≡ number_at text.now }
{
    let (digits, rest) = some_run(ByteSet::Digit, text)?;
    let version = version_number(digits)?;
    Some((version, rest))
}

#[tactic(auto, unfolding(crate::specs::Metadata::version_number))]
fn version_number(digits: &str) -> Option<u8>
    requires some { 0 < length digits.now }
    requires all { all_ascii_digits digits.now ≡ true }
    ensures { result ≡ version_number digits.now }
{
    digits.parse::<u8>().ok()
}

#[tactic(auto, unfolding(crate::specs::Metadata::cache_key))]
fn cache_key(text: &str) -> Option<(&str, &str)>
    ensures { option_map (λ x. (x.0.now, x.1.now)) result ≡ cache_key text.now }
{
    let key = after("cacheKey: ", after_blanks(text)?)?;
    let (_, end) = some_run(ByteSet::Digit, key)?;
    let rest = after_compression(end).unwrap_or(end);
    Some((front(key, rest), rest))
}

#[tactic(auto, unfolding(crate::specs::Metadata::after_compression))]
fn after_compression(text: &str) -> Option<&str>
    ensures { option_map (λ t. t.now) result ≡ after_compression text.now }
{
    let (_, rest) = some_run(ByteSet::Digit, after("c", text)?)?;
    Some(rest)
}
