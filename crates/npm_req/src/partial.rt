// Partial versions: a version, or one to three components, each a number or an x.
ghost use Rattle.std.specs.Prelude.{◌≡◌, ◌<◌, ◌≤◌, length, ◌∷◌, IfOk, IfSome, MatchOption, []};
ghost use Rattle.semver.specs.Order.{parts};
ghost use Rattle.npm_req.specs.Number.{counted, largest_number, number};
ghost use Rattle.npm_req.specs.Partial.{IsCounted, component, components, is_x, of_components, partial_of};

use crate::version::{LARGEST_NUMBER, Version, semver_of};
use std::alloc::{AllocError, Global};

// A version of which components may be left out.
#[derive(Drop)]
pub(crate) enum Partial {
    Any,
    Major(u64),
    Minor(u64, u64),
    Full(Version),
}

// The partial version that a text writes; a build is dropped.
pub(crate) fn partial_of(alloc: Global, text: &str) -> Result<Option<Partial>, AllocError>
    ensures read { IfOk result (λ found. found ≡ partial_of text.now) }
    ensures counted { IfOk result (λ found. IfSome found IsCounted) }
    ensures some { IfOk result (λ found. IfSome found (λ _. 0 < length text.now)) }
{
    match semver_of(alloc, text)? {
        Some(version) => Ok(Some(Partial::Full(version.without_build()))),
        None => Ok(components(text)),
    }
}

fn components(text: &str) -> Option<Partial>
    ensures read { result ≡ components (parts text.now) }
    ensures counted { IfSome result IsCounted }
{
    let (major, rest) = before_dot(text);
    let major = component(major)?;
    let Some(rest) = rest else {
        return Some(of_components(major, None, None));
    };
    let (minor, rest) = before_dot(rest);
    let minor = component(minor)?;
    let Some(rest) = rest else {
        return Some(of_components(major, minor, None));
    };
    let (patch, rest) = before_dot(rest);
    let patch = component(patch)?;
    match rest {
        None => Some(of_components(major, minor, patch)),
        Some(_) => None,
    }
}

// Components after an x are passed over.
fn of_components(major: Option<u64>, minor: Option<u64>, patch: Option<u64>) -> Partial
    requires major { IfSome major (λ n. n ≤ largest_number) }
    requires minor { IfSome minor (λ n. n ≤ largest_number) }
    requires patch { IfSome patch (λ n. n ≤ largest_number) }
    ensures value { result ≡ of_components major minor patch }
    ensures counted { IsCounted result }
{
    match (major, minor, patch) {
        (None, _, _) => Partial::Any,
        (Some(a), None, _) => Partial::Major(a),
        (Some(a), Some(b), None) => Partial::Minor(a, b),
        (Some(a), Some(b), Some(c)) => Partial::Full(Version::release(a, b, c)),
    }
}

// What stands before the first dot, and what follows it.
fn before_dot(text: &str) -> (&str, Option<&str>)
    ensures { MatchOption result.1 (parts text.now ≡ result.0.now ∷ []) (λ rest.
        parts text.now ≡ result.0.now ∷ parts rest.now) }
{
    match text.split_once('.') {
        Some((front, rest)) => (front, Some(rest)),
        None => (text, None),
    }
}

// A component, which gives no number where it is an x.
fn component(text: &str) -> Option<Option<u64>>
    ensures read { result ≡ component text.now }
    ensures small { IfSome result (λ found. IfSome found (λ n. n ≤ largest_number)) }
{
    if is_x(text) {
        Some(None)
    } else {
        Some(Some(number(text)?))
    }
}

fn is_x(text: &str) -> bool
    ensures { result ≡ is_x text.now }
{
    match text.as_bytes() {
        [c] => *c == b'x' || *c == b'X' || *c == b'*',
        _ => false,
    }
}

fn number(text: &str) -> Option<u64>
    ensures read { result ≡ number text.now }
    ensures small { IfSome result (λ n. n ≤ largest_number) }
{
    match text.as_bytes() {
        [] => None,
        [b'0', _, ..] => None,
        digits => counted(digits),
    }
}

// What the digits stand for, if it isn't too large.
fn counted(digits: &[u8]) -> Option<u64>
    ensures read { result ≡ counted digits.now }
    ensures small { IfSome result (λ n. n ≤ largest_number) }
{
    let mut value = 0;
    for digit in digits {
        if !digit.is_ascii_digit() {
            return None;
        }
        value = value * 10 + u64::from(*digit - b'0');
        if value > LARGEST_NUMBER {
            return None;
        }
    }
    Some(value)
}
