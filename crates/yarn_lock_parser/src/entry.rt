// An entry of a lock file.
ghost use Rattle.std.specs.Prelude.{◌≡◌, IfErr, IfOk, Ok};
ghost use Rattle.yarn_lock_parser.specs.Entry.{ends_in_blank, entry_of, entry_with, refuse_if};
ghost use Rattle.yarn_lock_parser.specs.Reader.{Explains};
ghost use Rattle.yarn_lock_parser.specs.Packed.{listed};

use crate::byte_set::ByteSet;
use crate::descriptors::{Descriptors, descriptors_at};
use crate::error::{EntryError, LockCause};
use crate::fields::{Fields, fields_of};
use crate::lists::Lists;
use crate::metas::Metas;
use crate::pair::Pairs;
use std::alloc::{AllocFailed, Global};
use std::marker::Model;

/// An entry of a lock file: the packages that it stands for, and what it says of them.
#[derive(Drop)]
pub struct Entry<'a> {
    descriptors: Descriptors<'a>,
    version: &'a str,
    resolved: &'a str,
    integrity: &'a str,
    // Kept elsewhere, and only where some list has an element: a file of many small entries takes little memory.
    lists: Option<Box<Lists<'a>>>,
}

impl<'a> Model for Entry<'a> {
    ghost use Rattle.std.specs.Prelude.{[], map};
    ghost use Rattle.std.specs.Option.{option_map_or};
    ghost use Rattle.yarn_lock_parser.specs.Entry as specs;
    ghost use Rattle.yarn_lock_parser.specs.Metas.{as_meta};
    ghost use Rattle.yarn_lock_parser.specs.Packed.{listed};

    ghost Value = { specs.Entry };

    ghost view = { λ e. record {
      name = specs.first_name (listed e.descriptors);
      version = e.version.now;
      resolved = e.resolved.now;
      integrity = e.integrity.now;
      dependencies = option_map_or (λ l. l.value.dependencies.items) e.lists [];
      optional_dependencies = option_map_or (λ l. l.value.optional_dependencies.items) e.lists [];
      peer_dependencies = option_map_or (λ l. l.value.peer_dependencies.items) e.lists [];
      dependencies_meta =
          map as_meta (option_map_or (λ l. l.value.dependencies_meta.items) e.lists []);
      peer_dependencies_meta =
          map as_meta (option_map_or (λ l. l.value.peer_dependencies_meta.items) e.lists []);
      descriptors = listed e.descriptors;
    } };
}

impl<'a> Entry<'a> {
    /// The package's name, as the first descriptor has it.
    pub fn name(&self) -> &'a str
        ensures { result.now ≡ self.now.name }
    {
        match self.descriptors.as_slice() {
            [first, ..] => first.name,
            [] => "",
        }
    }

    pub fn version(&self) -> &'a str
        ensures { result.now ≡ self.now.version }
    {
        self.version
    }

    /// Where the package comes from: a link in version 1, a locator from version 2 on; empty where the entry doesn't
    /// say.
    pub fn resolved(&self) -> &'a str
        ensures { result.now ≡ self.now.resolved }
    {
        self.resolved
    }

    /// What the package's files hash to; empty where the entry doesn't say.
    pub fn integrity(&self) -> &'a str
        ensures { result.now ≡ self.now.integrity }
    {
        self.integrity
    }

    pub fn dependencies(&self) -> Pairs<'_, 'a>
        ensures { result ≡ self.now.dependencies }
    {
        if let Some(lists) = self.lists.as_deref() {
            return Pairs::of(lists.dependencies.as_slice());
        }
        Pairs::none()
    }

    pub fn optional_dependencies(&self) -> Pairs<'_, 'a>
        ensures { result ≡ self.now.optional_dependencies }
    {
        if let Some(lists) = self.lists.as_deref() {
            return Pairs::of(lists.optional_dependencies.as_slice());
        }
        Pairs::none()
    }

    pub fn peer_dependencies(&self) -> Pairs<'_, 'a>
        ensures { result ≡ self.now.peer_dependencies }
    {
        if let Some(lists) = self.lists.as_deref() {
            return Pairs::of(lists.peer_dependencies.as_slice());
        }
        Pairs::none()
    }

    /// What the entry says of its dependencies.
    pub fn dependencies_meta(&self) -> Metas<'_, 'a>
        ensures { result ≡ self.now.dependencies_meta }
    {
        if let Some(lists) = self.lists.as_deref() {
            return Metas::of(lists.dependencies_meta.as_slice());
        }
        Metas::none()
    }

    /// What the entry says of its peer dependencies.
    pub fn peer_dependencies_meta(&self) -> Metas<'_, 'a>
        ensures { result ≡ self.now.peer_dependencies_meta }
    {
        if let Some(lists) = self.lists.as_deref() {
            return Metas::of(lists.peer_dependencies_meta.as_slice());
        }
        Metas::none()
    }

    /// The names and requirements that the entry answers.
    pub fn descriptors(&self) -> Pairs<'_, 'a>
        ensures { result ≡ self.now.descriptors }
    {
        Pairs::of(self.descriptors.as_slice())
    }

    fn new(
        alloc: Global,
        descriptors: Descriptors<'a>,
        fields: Fields<'a>,
    ) -> Result<Self, AllocFailed<Lists<'a>>>
        ensures { IfOk result (λ made. made ≡ entry_with (listed descriptors.entry) fields.entry) }
    {
        let Fields {
            version,
            resolved,
            integrity,
            lists,
            is_spoilt: _,
        } = fields;
        let lists = if lists.is_empty() {
            None
        } else {
            Some(Box::new(alloc, lists)?)
        };
        Ok(Entry {
            descriptors,
            version,
            resolved,
            integrity,
            lists,
        })
    }
}

/// The entry that a text is, or the first cause against it.
#[tactic(auto, unfolding(crate::specs::Entry::entry_of))]
pub(crate) fn entry_of(alloc: Global, text: &str) -> Result<Entry<'_>, EntryError>
    ensures read { IfOk result (λ entry. entry_of text.now ≡ Ok entry) }
    ensures refused { IfErr result (Explains (entry_of text.now)) }
{
    refuse_if(ends_in_blank(text), LockCause::LastLine)?;
    let (descriptors, body) = descriptors_at(alloc, text)?.ok_or(LockCause::Descriptors)?;
    let fields = fields_of(alloc, body)?.ok_or(LockCause::NoItem)?;
    refuse_if(fields.is_spoilt, LockCause::Optional)?;
    refuse_if(fields.version.is_empty(), LockCause::NoVersion)?;
    Ok(Entry::new(alloc, descriptors, fields)?)
}

fn refuse_if(is_refused: bool, cause: LockCause) -> Result<(), LockCause>
    ensures { result ≡ refuse_if is_refused cause }
{
    if is_refused { Err(cause) } else { Ok(()) }
}

#[tactic(auto, unfolding(crate::specs::Entry::ends_in_blank))]
fn ends_in_blank(text: &str) -> bool
    ensures { result ≡ ends_in_blank text.now }
{
    match text.as_bytes().last() {
        None => false,
        Some(last) => ByteSet::Blank.has(*last),
    }
}
