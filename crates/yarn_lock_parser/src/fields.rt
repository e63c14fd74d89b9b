// What the items of an entry say, each kind for itself.
ghost use Rattle.std.specs.Prelude.{◌≡◌, IfOk};
ghost use Rattle.std.specs.List.{fold, list_any};
ghost use Rattle.yarn_lock_parser.specs.Front.{every};
ghost use Rattle.yarn_lock_parser.specs.Item as specs;
ghost use Rattle.yarn_lock_parser.specs.Item.{item_at};
ghost use Rattle.yarn_lock_parser.specs.Given.{meta_kind_said};
ghost use Rattle.yarn_lock_parser.specs.Reader.{said};
ghost use Rattle.yarn_lock_parser.specs.Fields.{fields_of, is_unreadable, no_fields, with_item};

use crate::dependencies::DependencyKind;
use crate::item::{Item, item_at};
use crate::lists::Lists;
use crate::metas::{Meta, MetaKind};
use std::alloc::{AllocError, Global};
use std::marker::Model;

/// The fields of an entry; what no item says is empty.
#[derive(Drop)]
pub(crate) struct Fields<'a> {
    pub(crate) version: &'a str,
    pub(crate) resolved: &'a str,
    pub(crate) integrity: &'a str,
    pub(crate) lists: Lists<'a>,
    pub(crate) is_spoilt: bool,
}

impl<'a> Model for Fields<'a> {
    ghost use Rattle.yarn_lock_parser.specs.Fields as specs;

    ghost Value = { specs.Fields };

    ghost view = { λ f. record {
      version = f.version.now;
      resolved = f.resolved.now;
      integrity = f.integrity.now;
      dependencies = f.lists.dependencies.items;
      optional_dependencies = f.lists.optional_dependencies.items;
      peer_dependencies = f.lists.peer_dependencies.items;
      dependencies_meta = f.lists.dependencies_meta.items;
      peer_dependencies_meta = f.lists.peer_dependencies_meta.items;
      is_spoilt = f.is_spoilt;
    } };
}

impl<'a> Fields<'a> {
    fn new(alloc: Global) -> Self
        ensures { result ≡ no_fields }
    {
        Fields {
            version: "",
            resolved: "",
            integrity: "",
            lists: Lists::new(alloc),
            is_spoilt: false,
        }
    }

    /// Puts an item in the place of an earlier one of its kind.
    fn put(&mut self, item: Item<'a>)
        ensures { self.new ≡ with_item self.old (said item.entry) }
    {
        match item {
            Item::Version(version) => self.version = version,
            Item::Integrity(integrity) => self.integrity = integrity,
            Item::Resolved(resolved) => self.resolved = resolved,
            Item::Dependencies(DependencyKind::Regular, found) => self.lists.dependencies = found,
            Item::Dependencies(DependencyKind::Optional, found) => {
                self.lists.optional_dependencies = found;
            }
            Item::Dependencies(DependencyKind::Peer, found) => self.lists.peer_dependencies = found,
            Item::Metas(kind, found) => self.put_metas(kind, found),
            Item::Other => {}
        }
    }

    fn put_metas(&mut self, kind: MetaKind, found: Vec<Meta<'a>>)
        ensures { self.new ≡ with_item self.old (specs.Metas (meta_kind_said kind) found.entry.items) }
    {
        let is_spoilt = is_any_unreadable(found.as_slice());
        self.is_spoilt = self.is_spoilt || is_spoilt;
        match kind {
            MetaKind::Dependencies => self.lists.dependencies_meta = found,
            MetaKind::PeerDependencies => self.lists.peer_dependencies_meta = found,
        }
    }
}

// Some meta has a flag that can't be read.
fn is_any_unreadable(metas: &[Meta<'_>]) -> bool
    ensures { result ≡ list_any is_unreadable metas.now }
{
    metas.iter().any(|meta| meta.is_unreadable())
}

/// What the items of a text say: as many as fit, and one at least.
pub(crate) fn fields_of(alloc: Global, text: &str) -> Result<Option<Fields<'_>>, AllocError>
    ensures { IfOk result (λ o. o ≡ fields_of text.now) }
{
    let Some((first, rest)) = item_at(alloc, text)? else {
        return Ok(None);
    };
    let mut fields = Fields::new(alloc);
    fields.put(first);
    let fields = with_further(alloc, fields, rest)?;
    Ok(Some(fields))
}

fn with_further<'a>(
    alloc: Global,
    fields: Fields<'a>,
    text: &'a str,
) -> Result<Fields<'a>, AllocError>
    ensures { IfOk result (λ f. f ≡ fold with_item fields.entry (every item_at text.now).0) }
{
    let mut fields = fields;
    let mut rest = text;
    while let Some((item, behind)) = item_at(alloc, rest)? {
        fields.put(item);
        rest = behind;
    }
    Ok(fields)
}
