// One part of a range: an operator, spaces, a `v`, and a partial version.
ghost use Rattle.std.specs.Prelude.{◌≡◌, ◌<◌, ◌≤◌, length, Ok, Err, IfOk, IfErr};
ghost use Rattle.npm_req.specs.Front.{IsEndOf};
ghost use Rattle.npm_req.specs.Part.{IsInText, Refuses, after_sign, operator_of, or_equal, part};

use crate::comparator::{Comparator, Operator, comparators};
use crate::error::Refusal;
use crate::front::{after_char, after_spaces};
use crate::partial::partial_of;
use crate::word::word;
use std::alloc::Global;

// The comparators of the part in front, and what follows it.
#[tactic(auto, unfolding(crate::specs::Part::part))]
pub(crate) fn part(alloc: Global, text: &str) -> Result<(Vec<Comparator>, &str), Refusal>
    ensures read { IfOk result (λ r. part text.now ≡ Ok (r.0.items, r.1.now)) }
    ensures shorter { IfOk result (λ r. length r.1.now < length text.now) }
    ensures end { IfOk result (λ r. IsEndOf r.1.now text.now) }
    ensures refused { IfErr result (Refuses (part text.now)) }
    ensures inside { IfErr result (IsInText text.now) }
{
    let (operator, rest) = operator_of(text);
    let (word, rest) = word(after_sign(rest));
    match partial_of(alloc, word)? {
        Some(partial) => Ok((comparators(alloc, operator, partial)?, rest)),
        None => Err(Refusal::Unexpected { left: text.len() }),
    }
}

// The operator in front, and what follows it; nothing counts as `=`.
fn operator_of(text: &str) -> (Operator, &str)
    ensures value { (result.0, result.1.now) ≡ operator_of text.now }
    ensures shorter { length result.1.now ≤ length text.now }
{
    if let Some(rest) = after_char(text, '^') {
        return (Operator::Caret, rest);
    }
    if let Some(rest) = after_char(text, '~') {
        return (Operator::Tilde, after_char(rest, '>').unwrap_or(rest));
    }
    if let Some(rest) = after_char(text, '>') {
        return or_equal(Operator::Above, Operator::AtLeast, rest);
    }
    if let Some(rest) = after_char(text, '<') {
        return or_equal(Operator::Below, Operator::AtMost, rest);
    }
    (Operator::Equal, after_char(text, '=').unwrap_or(text))
}

// An operator that becomes another one where `=` follows.
fn or_equal(plain: Operator, equal: Operator, text: &str) -> (Operator, &str)
    ensures value { (result.0, result.1.now) ≡ or_equal plain equal text.now }
    ensures shorter { length result.1.now ≤ length text.now }
{
    match after_char(text, '=') {
        Some(rest) => (equal, rest),
        None => (plain, text),
    }
}

// Where the partial version of a part begins, from what follows the operator.
fn after_sign(text: &str) -> &str
    ensures value { result.now ≡ after_sign text.now }
    ensures shorter { length result.now ≤ length text.now }
{
    let from = after_spaces(text);
    after_char(from, 'v').unwrap_or(from)
}
