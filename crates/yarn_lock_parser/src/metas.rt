// What an entry says of its dependencies under a heading.
ghost use Rattle.std.specs.Prelude.{◌≡◌, IfOk, option_map};
ghost use Rattle.std.specs.List.{fold};
ghost use Rattle.yarn_lock_parser.specs.Front.{every, some};
ghost use Rattle.yarn_lock_parser.specs.Given.{flag_said, meta_kind_said};
ghost use Rattle.yarn_lock_parser.specs.Metas.{flag_of, flag_under, meta_at, meta_kind, metas_at, noted, property_at};

use crate::byte_set::ByteSet;
use crate::dependencies::deeper;
use crate::front::{after_line_end, before_optional, line_at, quoted_at, run, some_run};
use std::alloc::{AllocError, Global};
use std::marker::Model;
use std::{fmt, slice};
use sugar_path::after;

/// Which metas a heading names.
#[derive(Clone, Copy)]
pub(crate) enum MetaKind {
    Dependencies,
    PeerDependencies,
}

/// What the properties `optional` of a meta say.
#[derive(Clone, Copy)]
pub(crate) enum Flag {
    Absent,
    Known(bool),
    Unreadable,
}

impl Flag {
    ghost use Rattle.yarn_lock_parser.specs.Metas.{known};
    ghost use Rattle.yarn_lock_parser.specs.Given.{flag_said};

    pub(crate) fn known(self) -> Option<bool>
        ensures { result ≡ known (flag_said self) }
    {
        match self {
            Flag::Absent | Flag::Unreadable => None,
            Flag::Known(optional) => Some(optional),
        }
    }
}

/// What an entry says of one of its dependencies.
#[derive(Debug, PartialEq, Eq, Default, Drop)]
pub struct DepMeta {
    /// Whether it may be left out, where the entry says so.
    pub optional: Option<bool>,
}

/// A meta's name, and what it says.
#[derive(Drop)]
pub(crate) struct Meta<'a> {
    pub(crate) name: &'a str,
    pub(crate) flag: Flag,
}

impl<'a> Model for Meta<'a> {
    ghost use Rattle.std.specs.Prelude.{List, ℕ};
    ghost use Rattle.yarn_lock_parser.specs.Metas.{Flag};
    ghost use Rattle.yarn_lock_parser.specs.Given.{flag_said};

    ghost Value = { List ℕ × Flag };

    ghost view = { λ m. (m.name.now, flag_said m.flag) };
}

impl<'a> Meta<'a> {
    ghost use Rattle.yarn_lock_parser.specs.Fields.{is_unreadable};

    /// A property `optional` of the meta is neither `true` nor `false`.
    pub(crate) fn is_unreadable(&self) -> bool
        ensures { result ≡ is_unreadable self.now }
    {
        matches!(self.flag, Flag::Unreadable)
    }
}

/// The metas under a heading with an indent, and what follows them.
#[tactic(auto, unfolding(crate::specs::Metas::metas_at, crate::specs::Front::some))]
pub(crate) fn metas_at<'a>(
    alloc: Global,
    indent: &str,
    text: &'a str,
) -> Result<Option<(MetaKind, Vec<Meta<'a>>, &'a str)>, AllocError>
    ensures { IfOk result (λ o.
        option_map (λ x. ((meta_kind_said x.0, x.1.items), x.2.now)) o
        ≡ metas_at indent.now text.now) }
{
    let Some((kind, end)) = meta_kind(text) else {
        return Ok(None);
    };
    let Some(body) = after_line_end(end) else {
        return Ok(None);
    };
    let (found, rest) = every_meta(alloc, indent, body)?;
    if found.is_empty() {
        return Ok(None);
    }
    Ok(Some((kind, found, rest)))
}

fn every_meta<'a>(
    alloc: Global,
    indent: &str,
    text: &'a str,
) -> Result<(Vec<Meta<'a>>, &'a str), AllocError>
    ensures { IfOk result (λ x. (x.0.items, x.1.now) ≡ every (meta_at indent.now) text.now) }
{
    let mut found = Vec::new(alloc);
    let mut rest = text;
    while let Some((meta, behind)) = meta_at(indent, rest) {
        found.push(meta)?;
        rest = behind;
    }
    Ok((found, rest))
}

#[tactic(auto, unfolding(crate::specs::Metas::meta_kind))]
fn meta_kind(text: &str) -> Option<(MetaKind, &str)>
    ensures { option_map (λ x. (meta_kind_said x.0, x.1.now)) result ≡ meta_kind text.now }
{
    if let Some(rest) = after("dependenciesMeta:", text) {
        return Some((MetaKind::Dependencies, rest));
    }
    let rest = after("peerDependenciesMeta:", text)?;
    Some((MetaKind::PeerDependencies, rest))
}

#[tactic(auto, unfolding(crate::specs::Metas::meta_at))]
fn meta_at<'a>(indent: &str, text: &'a str) -> Option<(Meta<'a>, &'a str)>
    ensures { option_map (λ x. (x.0, x.1.now)) result ≡ meta_at indent.now text.now }
{
    let (own, key) = deeper(indent, text)?;
    let (name, end) = match quoted_at(key) {
        Some(quoted) => quoted,
        None => run(ByteSet::NotColon, key),
    };
    let body = after_line_end(after(":", end)?)?;
    let (flag, rest) = flag_under(own, body)?;
    Some((Meta { name, flag }, rest))
}

// What the properties under a meta say, one or more, and what follows them.
#[tactic(auto, unfolding(crate::specs::Metas::flag_under))]
fn flag_under<'a>(indent: &str, text: &'a str) -> Option<(Flag, &'a str)>
    ensures { option_map (λ x. (flag_said x.0, x.1.now)) result
        ≡ flag_under indent.now text.now }
{
    let (key, value, rest) = property_at(indent, text)?;
    Some(further_flag(indent, noted(Flag::Absent, key, value), rest))
}

// What the properties say, after those that gave a flag already, and what follows them.
fn further_flag<'a>(indent: &str, flag: Flag, text: &'a str) -> (Flag, &'a str)
    ensures flag { flag_said result.0
        ≡ fold noted (flag_said flag) (every (property_at indent.now) text.now).0 }
    ensures rest { result.1.now ≡ (every (property_at indent.now) text.now).1 }
{
    let mut flag = flag;
    let mut rest = text;
    while let Some((key, value, behind)) = property_at(indent, rest) {
        flag = noted(flag, key, value);
        rest = behind;
    }
    (flag, rest)
}

// A property's key and value, and what follows its line.
#[tactic(auto, unfolding(crate::specs::Metas::property_at))]
fn property_at<'a>(indent: &str, text: &'a str) -> Option<(&'a str, &'a str, &'a str)>
    ensures { option_map (λ x. ((x.0.now, x.1.now), x.2.now)) result
        ≡ property_at indent.now text.now }
{
    let (_, text) = deeper(indent, text)?;
    let (key, end) = run(ByteSet::NotColon, text);
    let (value, rest) = line_at(after(": ", end)?)?;
    Some((key, before_optional("\r", value), rest))
}

fn noted(flag: Flag, key: &str, value: &str) -> Flag
    ensures { flag_said result ≡ noted (flag_said flag) (key.now, value.now) }
{
    match flag {
        Flag::Unreadable => Flag::Unreadable,
        _ if key == "optional" => flag_of(value),
        _ => flag,
    }
}

fn flag_of(value: &str) -> Flag
    ensures { flag_said result ≡ flag_of value.now }
{
    match value {
        "true" => Flag::Known(true),
        "false" => Flag::Known(false),
        _ => Flag::Unreadable,
    }
}

/// What an entry says of its dependencies, in order.
#[derive(Drop)]
pub struct Metas<'e, 'a> {
    metas: &'e [Meta<'a>],
}

impl<'e, 'a> Model for Metas<'e, 'a> {
    ghost use Rattle.std.specs.Prelude.{List, ℕ, map};
    ghost use Rattle.yarn_lock_parser.specs.declared.metas.DepMeta.{DepMeta};

    ghost Value = { List (List ℕ × DepMeta) };

    ghost use Rattle.yarn_lock_parser.specs.Metas.{as_meta};

    ghost view = { λ m. map as_meta m.metas.now };
}

impl<'e, 'a> Metas<'e, 'a> {
    ghost use Rattle.std.specs.Prelude.{◌≡◌, ◌↔◌, [], IsTrue, length, map, option_map, slice_get};
    ghost use Rattle.yarn_lock_parser.specs.Metas.{as_meta};
    ghost use Rattle.std.specs.Cmp.Lexicographic.{pointwise};
    ghost use Rattle.yarn_lock_parser.specs.EntryEq.{meta_eq};

    /// Both say the same of the same names, in the same order.
    pub(crate) fn is_same(&self, other: &Metas<'_, '_>) -> bool
        ensures { result ≡ pointwise meta_eq self.now other.now }
    {
        self.metas == other.metas
    }

    pub(crate) fn of(metas: &'e [Meta<'a>]) -> Self
        ensures { result ≡ map as_meta metas.now }
    {
        Metas { metas }
    }

    pub(crate) fn none() -> Self
        ensures { result ≡ [] }
    {
        Metas { metas: &[] }
    }

    pub fn len(&self) -> usize
        ensures { result ≡ length self.now }
    {
        self.metas.len()
    }

    /// Whether nothing is said of any dependency.
    pub fn is_empty(&self) -> bool
        ensures { IsTrue result ↔ (self.now ≡ []) }
    {
        self.metas.is_empty()
    }

    /// The names, each with what is said of it, in order.
    pub fn iter(&self) -> MetasIter<'e, 'a>
        ensures { result ≡ self.now }
    {
        MetasIter {
            rest: self.metas.iter(),
        }
    }

    /// The name of the dependency at an index, and what is said of it.
    pub fn get(&self, index: usize) -> Option<(&'a str, DepMeta)>
        ensures { option_map (λ x. (x.0.now, x.1)) result ≡ slice_get self.now index }
    {
        let meta = self.metas.get(index)?;
        let optional = meta.flag.known();
        Some((meta.name, DepMeta { optional }))
    }
}

impl<'e, 'a> fmt::Debug for Metas<'e, 'a> {
    fn fmt<W: fmt::Write>(&self, f: &mut fmt::Formatter<W>) -> fmt::Result {
        f.debug_map().entries(self.iter()).finish()
    }
}

/// An iterator over metas. What it shows is the names that are left, each with what is said of it.
#[derive(Drop)]
pub struct MetasIter<'e, 'a> {
    rest: slice::Iter<'e, Meta<'a>>,
}

impl<'e, 'a> Model for MetasIter<'e, 'a> {
    ghost use Rattle.std.specs.Prelude.{List, ℕ, map};
    ghost use Rattle.yarn_lock_parser.specs.declared.metas.DepMeta.{DepMeta};

    ghost Value = { List (List ℕ × DepMeta) };

    ghost use Rattle.yarn_lock_parser.specs.Metas.{as_meta};
    ghost use Rattle.std.specs.Slice.Iter.{iter_rest};

    ghost view = { λ m. map as_meta (iter_rest m.rest) };
}

impl<'e, 'a> Iterator for MetasIter<'e, 'a> {
    ghost use Rattle.std.specs.Iterator.{YieldsFirstBy, item_count};

    type Item = (&'a str, DepMeta);

    ghost next_gives = { YieldsFirstBy (λ x. (x.0.now, x.1)) (λ rest. rest) };

    ghost remaining = { item_count (λ rest. rest) };

    fn next(&mut self) -> Option<(&'a str, DepMeta)> {
        let meta = self.rest.next()?;
        let optional = meta.flag.known();
        Some((meta.name, DepMeta { optional }))
    }
}
