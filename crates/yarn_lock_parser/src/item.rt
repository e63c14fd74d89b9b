// The items of an entry.
ghost use Rattle.std.specs.Prelude.{◌≡◌, IfOk, option_map};
ghost use Rattle.yarn_lock_parser.specs.Item.{indented_at, item_at, keyed_at};
ghost use Rattle.yarn_lock_parser.specs.Reader.{said};

use crate::byte_set::ByteSet;
use crate::dependencies::{DependencyKind, dependencies_at};
use crate::front::{line_at, some_run};
use crate::items::{integrity_at, resolved_at, version_at};
use crate::metas::{Meta, MetaKind, metas_at};
use crate::pair::Pair;
use std::alloc::{AllocError, Global};

/// What an item says.
#[derive(Drop)]
pub(crate) enum Item<'a> {
    Version(&'a str),
    Dependencies(DependencyKind, Vec<Pair<'a>>),
    Integrity(&'a str),
    Resolved(&'a str),
    Metas(MetaKind, Vec<Meta<'a>>),
    /// A line that says nothing here.
    Other,
}

/// The item by the first form that fits, and what follows it. The blanks before a key are read once for all the forms.
#[tactic(auto, unfolding(crate::specs::Item::item_at))]
pub(crate) fn item_at(alloc: Global, text: &str) -> Result<Option<(Item<'_>, &str)>, AllocError>
    ensures { IfOk result (λ o. option_map (λ x. (said x.0, x.1.now)) o ≡ item_at text.now) }
{
    if let Some(found) = indented_at(alloc, text)? {
        return Ok(Some(found));
    }
    match line_at(text) {
        Some((_, rest)) => Ok(Some((Item::Other, rest))),
        None => Ok(None),
    }
}

#[tactic(auto, unfolding(crate::specs::Item::indented_at))]
fn indented_at(alloc: Global, text: &str) -> Result<Option<(Item<'_>, &str)>, AllocError>
    ensures { IfOk result (λ o. option_map (λ x. (said x.0, x.1.now)) o ≡ indented_at text.now) }
{
    match some_run(ByteSet::Blank, text) {
        Some((indent, key)) => keyed_at(alloc, indent, key),
        None => Ok(None),
    }
}

// The item behind its indent.
#[tactic(auto, unfolding(crate::specs::Item::keyed_at))]
fn keyed_at<'a>(
    alloc: Global,
    indent: &str,
    text: &'a str,
) -> Result<Option<(Item<'a>, &'a str)>, AllocError>
    ensures { IfOk result (λ o.
        option_map (λ x. (said x.0, x.1.now)) o ≡ keyed_at indent.now text.now) }
{
    if let Some((version, rest)) = version_at(text) {
        return Ok(Some((Item::Version(version), rest)));
    }
    if let Some((kind, found, rest)) = dependencies_at(alloc, indent, text)? {
        return Ok(Some((Item::Dependencies(kind, found), rest)));
    }
    if let Some((integrity, rest)) = integrity_at(text) {
        return Ok(Some((Item::Integrity(integrity), rest)));
    }
    if let Some((resolved, rest)) = resolved_at(text) {
        return Ok(Some((Item::Resolved(resolved), rest)));
    }
    match metas_at(alloc, indent, text)? {
        Some((kind, found, rest)) => Ok(Some((Item::Metas(kind, found), rest))),
        None => Ok(None),
    }
}
