// Ranges: alternatives between `||`, each empty, two partial versions around `-`, or parts between spaces.
ghost use Rattle.std.specs.Prelude.{◌≡◌, ◌++◌, ◌≤◌, length, option_map, Ok, Err, IfOk, IfErr, IfSome};
ghost use Rattle.npm_req.specs.Front.{IsEndOf};
ghost use Rattle.npm_req.specs.Part.{IsInText, Refuses};
ghost use Rattle.npm_req.specs.Partial.{IsCounted};
ghost use Rattle.npm_req.specs.Range.{after_hyphen, alternative, hyphen_of, parts_of, range};

use crate::comparator::{Comparator, Operator, comparators};
use crate::error::Refusal;
use crate::front::{after_char, after_spaces};
use crate::part::part;
use crate::partial::{Partial, partial_of};
use crate::word::{after_bars, ends_alternative, word};
use std::alloc::Global;
use sugar_path::List;

// The alternatives of a range, each by its comparators.
pub(crate) fn range(alloc: Global, text: &str) -> Result<List<List<Comparator>>, Refusal>
    ensures read { IfOk result (λ made. range text.now ≡ Ok made) }
    ensures refused { IfErr result (Refuses (range text.now)) }
    ensures inside { IfErr result (IsInText text.now) }
{
    let mut made = Vec::new(alloc);
    let mut rest = text;
    'alternatives: loop {
        let (comparators, behind) = alternative(alloc, rest)?;
        made.push(List::from(comparators))?;
        match after_bars(behind) {
            None => return Ok(List::from(made)),
            Some(next) => rest = next,
        }
    }
}

// The comparators of the alternative in front, and what follows it.
#[tactic(auto, unfolding(crate::specs::Range::alternative))]
fn alternative(alloc: Global, text: &str) -> Result<(Vec<Comparator>, &str), Refusal>
    ensures read { IfOk result (λ r. alternative text.now ≡ Ok (r.0.items, r.1.now)) }
    ensures shorter { IfOk result (λ r. length r.1.now ≤ length text.now) }
    ensures end { IfOk result (λ r. IsEndOf r.1.now text.now) }
    ensures refused { IfErr result (Refuses (alternative text.now)) }
    ensures inside { IfErr result (IsInText text.now) }
{
    let from = after_spaces(text);
    let (first, behind) = word(from);
    if let Some(second) = after_hyphen(behind) {
        if let Some(low) = partial_of(alloc, first)? {
            return hyphen_of(alloc, low, second);
        }
    }
    parts_of(alloc, from)
}

// Where the second partial version of a form with `-` begins, from what follows the first.
fn after_hyphen(text: &str) -> Option<&str>
    ensures value { option_map (λ t. t.now) result ≡ after_hyphen text.now }
    ensures shorter { IfSome result (λ rest. length rest.now ≤ length text.now) }
{
    let rest = after_char(after_char(after_spaces(text), '-')?, ' ')?;
    Some(after_spaces(rest))
}

// A form with `-`, from its second partial version on.
#[tactic(auto, unfolding(crate::specs::Range::hyphen_of))]
fn hyphen_of(alloc: Global, low: Partial, text: &str) -> Result<(Vec<Comparator>, &str), Refusal>
    requires { IsCounted low }
    ensures read { IfOk result (λ r. hyphen_of low text.now ≡ Ok (r.0.items, r.1.now)) }
    ensures shorter { IfOk result (λ r. length r.1.now ≤ length text.now) }
    ensures end { IfOk result (λ r. IsEndOf r.1.now text.now) }
    ensures refused { IfErr result (Refuses (hyphen_of low text.now)) }
    ensures inside { IfErr result (IsInText text.now) }
{
    let (second, behind) = word(text);
    let Some(high) = partial_of(alloc, second)? else {
        return Err(Refusal::Unexpected { left: text.len() });
    };
    let rest = after_spaces(behind);
    if !ends_alternative(rest) {
        return Err(Refusal::Unexpected { left: rest.len() });
    }
    let mut made = comparators(alloc, Operator::AtLeast, low)?;
    let mut upper = comparators(alloc, Operator::AtMost, high)?;
    made.append(&mut upper)?;
    Ok((made, rest))
}

// The comparators of the parts up to the end of the alternative, and what follows it.
fn parts_of(alloc: Global, text: &str) -> Result<(Vec<Comparator>, &str), Refusal>
    ensures read { IfOk result (λ r.
        parts_of (length text.now) text.now ≡ Ok (r.0.items, r.1.now)) }
    ensures shorter { IfOk result (λ r. length r.1.now ≤ length text.now) }
    ensures end { IfOk result (λ r. IsEndOf r.1.now text.now) }
    ensures refused { IfErr result (Refuses (parts_of (length text.now) text.now)) }
    ensures inside { IfErr result (IsInText text.now) }
{
    let mut made = Vec::new(alloc);
    let mut rest = text;
    'parts: while !ends_alternative(rest) {
        let (mut comparators, behind) = part(alloc, rest)?;
        made.append(&mut comparators)?;
        rest = after_spaces(behind);
    }
    Ok((made, rest))
}
