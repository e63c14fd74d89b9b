// The descriptors on an entry's first line.
ghost use Rattle.std.specs.Prelude.{◌≡◌, ◌∷◌, [], IfOk, option_map, List, ℕ};
ghost use Rattle.yarn_lock_parser.specs.Front.{every};
ghost use Rattle.yarn_lock_parser.specs.Packed.{listed};
ghost use Rattle.yarn_lock_parser.specs.Descriptors.{
  before_colon,
  descriptor_at,
  descriptors_at,
  descriptors_on,
  each_parted,
  next_descriptor,
  parted,
  put_before,
};

use crate::byte_set::ByteSet;
use crate::front::{after_optional, before, front, line_at, run, some_run};
use crate::pair::Pair;
use std::alloc::{AllocError, Global};
use std::slice;
use sugar_path::after;

/// The descriptors of an entry. Most entries have one, which takes no memory beside the entry's own.
#[derive(Drop)]
pub(crate) enum Descriptors<'a> {
    One(Pair<'a>),
    Several(Vec<Pair<'a>>),
}

impl<'a> Descriptors<'a> {
    pub(crate) fn as_slice(&self) -> &[Pair<'a>]
        ensures { result.now ≡ listed self.now }
    {
        match self {
            Descriptors::One(pair) => slice::from_ref(pair),
            Descriptors::Several(pairs) => pairs.as_slice(),
        }
    }
}

/// The descriptors of the first line, and what follows the line.
#[tactic(auto, unfolding(crate::specs::Descriptors::descriptors_at))]
pub(crate) fn descriptors_at(
    alloc: Global,
    text: &str,
) -> Result<Option<(Descriptors<'_>, &str)>, AllocError>
    ensures { IfOk result (λ o.
        option_map (λ x. (listed x.0, x.1.now)) o ≡ descriptors_at text.now) }
{
    let Some((line, rest)) = line_at(text) else {
        return Ok(None);
    };
    let Some(list) = before_colon(line) else {
        return Ok(None);
    };
    match descriptors_on(alloc, list)? {
        None => Ok(None),
        Some(found) => Ok(Some((found, rest))),
    }
}

#[tactic(auto, unfolding(crate::specs::Descriptors::before_colon))]
fn before_colon(line: &str) -> Option<&str>
    ensures { option_map (λ t. t.now) result ≡ before_colon line.now }
{
    match before(":\r", line) {
        Some(list) => Some(list),
        None => before(":", line),
    }
}

#[tactic(auto, unfolding(crate::specs::Descriptors::descriptors_on))]
fn descriptors_on(alloc: Global, list: &str) -> Result<Option<Descriptors<'_>>, AllocError>
    ensures { IfOk result (λ o. option_map listed o ≡ descriptors_on list.now) }
{
    let Some((first, rest)) = descriptor_at(list) else {
        return Ok(None);
    };
    match parted(first) {
        None => Ok(None),
        Some(pair) => with_further(alloc, pair, rest),
    }
}

// A first descriptor and those that follow it.
fn with_further<'a>(
    alloc: Global,
    first: Pair<'a>,
    list: &'a str,
) -> Result<Option<Descriptors<'a>>, AllocError>
    ensures { IfOk result (λ o.
        option_map listed o
        ≡ put_before (first.entry ∷ []) (each_parted (every next_descriptor list.now).0)) }
{
    match next_descriptor(list) {
        None => Ok(Some(Descriptors::One(first))),
        Some(_) => Ok(several(alloc, first, list)?.map(Descriptors::Several)),
    }
}

fn several<'a>(
    alloc: Global,
    first: Pair<'a>,
    list: &'a str,
) -> Result<Option<Vec<Pair<'a>>>, AllocError>
    ensures { IfOk result (λ o.
        option_map (λ v. v.items) o
        ≡ put_before (first.entry ∷ []) (each_parted (every next_descriptor list.now).0)) }
{
    let mut found = Vec::new(alloc);
    found.push(first)?;
    let mut rest = list;
    while let Some((descriptor, behind)) = next_descriptor(rest) {
        match parted(descriptor) {
            None => return Ok(None),
            Some(pair) => found.push(pair)?,
        }
        rest = behind;
    }
    Ok(Some(found))
}

#[tactic(auto, unfolding(crate::specs::Descriptors::descriptor_at))]
fn descriptor_at(text: &str) -> Option<(&str, &str)>
    ensures { option_map (λ x. (x.0.now, x.1.now)) result ≡ descriptor_at text.now }
{
    let (descriptor, rest) = some_run(ByteSet::Descriptor, after_optional("\"", text))?;
    Some((descriptor, after_optional("\"", rest)))
}

#[tactic(auto, unfolding(crate::specs::Descriptors::next_descriptor))]
fn next_descriptor(text: &str) -> Option<(&str, &str)>
    ensures { option_map (λ x. (x.0.now, x.1.now)) result ≡ next_descriptor text.now }
{
    descriptor_at(after(", ", after_optional("\"", text))?)
}

// Name and requirement of a descriptor.
#[tactic(auto, unfolding(crate::specs::Descriptors::parted))]
fn parted(text: &str) -> Option<Pair<'_>>
    ensures { result ≡ parted text.now }
{
    let (_, end) = run(ByteSet::NotAt, after_optional("@", text));
    let value = after("@", end)?;
    let name = front(text, end);
    Some(Pair { name, value })
}
