// The dependencies that an entry lists under a heading.
ghost use Rattle.std.specs.Prelude.{◌≡◌, IfOk, option_map};
ghost use Rattle.yarn_lock_parser.specs.Front.{every, some};
ghost use Rattle.yarn_lock_parser.specs.Given.{kind_said};
ghost use Rattle.yarn_lock_parser.specs.Dependencies.{
  deeper,
  dependencies_at,
  dependency_at,
  dependency_kind,
  dependency_version,
  is_lone_return,
  line_rest,
  trimmed,
};

use crate::byte_set::ByteSet;
use crate::front::{after_line_end, before, quoted_at, run, some_run};
use crate::pair::Pair;
use std::alloc::{AllocError, Global};
use sugar_path::after;

/// Which dependencies a heading names.
#[derive(Clone, Copy)]
pub(crate) enum DependencyKind {
    Regular,
    Optional,
    Peer,
}

/// The dependencies under a heading with an indent, and what follows them.
#[tactic(auto, unfolding(crate::specs::Dependencies::dependencies_at, crate::specs::Front::some))]
pub(crate) fn dependencies_at<'a>(
    alloc: Global,
    indent: &str,
    text: &'a str,
) -> Result<Option<(DependencyKind, Vec<Pair<'a>>, &'a str)>, AllocError>
    ensures { IfOk result (λ o.
        option_map (λ x. ((kind_said x.0, x.1.items), x.2.now)) o
        ≡ dependencies_at indent.now text.now) }
{
    let Some((kind, end)) = dependency_kind(text) else {
        return Ok(None);
    };
    let Some(body) = after_line_end(end) else {
        return Ok(None);
    };
    let (found, rest) = every_dependency(alloc, indent, body)?;
    if found.is_empty() {
        return Ok(None);
    }
    Ok(Some((kind, found, rest)))
}

fn every_dependency<'a>(
    alloc: Global,
    indent: &str,
    text: &'a str,
) -> Result<(Vec<Pair<'a>>, &'a str), AllocError>
    ensures { IfOk result (λ x. (x.0.items, x.1.now) ≡ every (dependency_at indent.now) text.now) }
{
    let mut found = Vec::new(alloc);
    let mut rest = text;
    while let Some((pair, behind)) = dependency_at(indent, rest) {
        found.push(pair)?;
        rest = behind;
    }
    Ok((found, rest))
}

#[tactic(auto, unfolding(crate::specs::Dependencies::dependency_kind))]
fn dependency_kind(text: &str) -> Option<(DependencyKind, &str)>
    ensures { option_map (λ x. (kind_said x.0, x.1.now)) result ≡ dependency_kind text.now }
{
    if let Some(rest) = after("dependencies:", text) {
        return Some((DependencyKind::Regular, rest));
    }
    if let Some(rest) = after("optionalDependencies:", text) {
        return Some((DependencyKind::Optional, rest));
    }
    let rest = after("peerDependencies:", text)?;
    Some((DependencyKind::Peer, rest))
}

#[tactic(auto, unfolding(crate::specs::Dependencies::dependency_at))]
fn dependency_at<'a>(indent: &str, text: &'a str) -> Option<(Pair<'a>, &'a str)>
    ensures { option_map (λ x. (x.0, x.1.now)) result ≡ dependency_at indent.now text.now }
{
    let (_, key) = deeper(indent, text)?;
    let (name, end) = some_run(ByteSet::DependencyName, key)?;
    let mark = after(":", end).or(after(" ", end))?;
    let (value, rest) = dependency_version(mark)?;
    let name = trimmed(name);
    Some((Pair { name, value }, rest))
}

/// The blanks before what stands deeper than an indent, and what follows them.
#[tactic(auto, unfolding(crate::specs::Dependencies::deeper))]
pub(crate) fn deeper<'a>(indent: &str, text: &'a str) -> Option<(&'a str, &'a str)>
    ensures { option_map (λ x. (x.0.now, x.1.now)) result ≡ deeper indent.now text.now }
{
    let (own, rest) = run(ByteSet::Blank, text);
    if after(indent, own)?.is_empty() {
        return None;
    }
    Some((own, rest))
}

// A version, and what follows it and the line end or the blanks behind it.
#[tactic(auto, unfolding(crate::specs::Dependencies::dependency_version))]
fn dependency_version(text: &str) -> Option<(&str, &str)>
    ensures { option_map (λ x. (x.0.now, x.1.now)) result ≡ dependency_version text.now }
{
    let (_, text) = run(ByteSet::Blank, text);
    let (version, end) = match quoted_at(text) {
        Some(quoted) => quoted,
        None => line_rest(text)?,
    };
    let rest = match after_line_end(end) {
        Some(rest) => rest,
        None => run(ByteSet::Blank, end).1,
    };
    Some((version, rest))
}

// The rest of a line, where no lone carriage return stands in it, and its line end.
#[tactic(auto, unfolding(crate::specs::Dependencies::line_rest))]
fn line_rest(text: &str) -> Option<(&str, &str)>
    ensures { option_map (λ x. (x.0.now, x.1.now)) result ≡ line_rest text.now }
{
    let (line, end) = run(ByteSet::NotLineEnd, text);
    if is_lone_return(end) {
        return None;
    }
    Some((line, end))
}

fn is_lone_return(text: &str) -> bool
    ensures { result ≡ is_lone_return text.now }
{
    after("\r", text).is_some() && after("\r\n", text).is_none()
}

// A text without the quotes at both ends.
fn trimmed(text: &str) -> &str
    ensures { result.now ≡ trimmed text.now }
{
    text.trim_start_matches('"').trim_end_matches('"')
}
