// Texts around a `*`, and texts in place of one.
ghost use Rattle.std.specs.Prelude.{◌≡◌, IfOk, option_map, string_bytes};
ghost use Rattle.star_texts.specs.Star.{around_only_star, around_star, has_star, replaced, rest_between};

use std::alloc::{AllocError, Global};

/// Whether a `*` stands in the text.
pub fn has_star(text: &str) -> bool
    ensures { result ≡ has_star text.now }
{
    text.contains('*')
}

/// What stands before the first `*` of a text, and what stands behind it.
pub fn around_star(text: &str) -> Option<(&str, &str)>
    ensures { option_map (λ x. (x.0.now, x.1.now)) result ≡ around_star text.now }
{
    text.split_once('*')
}

/// What stands before and behind the `*` of a text that holds exactly one.
pub fn around_only_star(text: &str) -> Option<(&str, &str)>
    ensures { option_map (λ x. (x.0.now, x.1.now)) result ≡ around_only_star text.now }
{
    let (before, behind) = around_star(text)?;
    if has_star(behind) {
        None
    } else {
        Some((before, behind))
    }
}

/// What stands between one text at the front and another at the end, where the text begins and
/// ends so and the two don't overlap.
pub fn rest_between<'t>(text: &'t str, before: &str, behind: &str) -> Option<&'t str>
    ensures { option_map (λ x. x.now) result ≡ rest_between text.now before.now behind.now }
{
    text.strip_prefix(before)?.strip_suffix(behind)
}

/// The text with another in place of each `*`.
pub fn replaced(alloc: Global, text: &str, rest: &str) -> Result<String, AllocError>
    ensures { IfOk result (λ made. string_bytes made ≡ replaced text.now rest.now) }
{
    text.replace(alloc, '*', rest)
}
