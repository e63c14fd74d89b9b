// What a single piece of a pattern does at a place of a text.
ghost use Rattle.std.specs.Prelude.{◌≡◌, ℕ, ◌<◌, ◌≤◌, Bool, false, length, slice_get, unwrap_or};
ghost use Rattle.std.specs.List.{list_any};
ghost use Rattle.es_pattern.specs.Spans.{fits, is_boundary, is_within, is_word, is_word_at, is_word_before};

use crate::piece::CharRange;

fn is_among(ranges: &[CharRange], c: char) -> bool
    ensures { result ≡ list_any (is_within c) ranges.now }
{
    ranges
        .iter()
        .any(|range| range.first <= c && c <= range.last)
}

#[tactic(auto, using(crate::proofs::Passings::differs_is))]
pub(crate) fn fits(negated: bool, ranges: &[CharRange], c: char) -> bool
    ensures { result ≡ fits negated ranges.now c }
{
    negated != is_among(ranges, c)
}

fn is_word(c: char) -> bool
    ensures { result ≡ is_word c }
{
    matches!(c, 'a'..='z' | 'A'..='Z' | '0'..='9' | '_')
}

fn is_word_before(text: &[char], place: usize) -> bool
    requires { place ≤ length text.now }
    ensures { result ≡ is_word_before text.now place }
{
    place > 0 && is_word(text[place - 1])
}

fn is_word_at(text: &[char], place: usize) -> bool
    requires { place ≤ length text.now }
    ensures { result ≡ is_word_at text.now place }
{
    place < text.len() && is_word(text[place])
}

#[tactic(auto, using(crate::proofs::Passings::differs_is))]
pub(crate) fn is_boundary(text: &[char], place: usize) -> bool
    requires { place ≤ length text.now }
    ensures { result ≡ is_boundary text.now place }
{
    is_word_before(text, place) != is_word_at(text, place)
}
