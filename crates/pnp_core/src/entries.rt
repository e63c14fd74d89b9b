// A payload's lists of pairs as maps, and its lists of names as sets: a repeated name keeps its place, and takes the
// last value.
ghost use Rattle.std.specs.Prelude.{◌≡◌, IfOk, map, option_map, unwrap_or, []};
ghost use Rattle.serde_json.specs.Find.{as_str};
ghost use Rattle.serde_json.specs.View.{items_of};
ghost use Rattle.json_reading.specs.Reading.{ReadsAs, items_by, nullable_by, pair_by};
ghost use Rattle.pnp_core.specs.ManifestReading.{entries_of, named};
ghost use Rattle.indexmap.specs.IndexSet as set;

use indexmap::{IndexMap, IndexSet};
use json_reading::{FromJson, FromJsonError, JsonValue};
use std::alloc::{AllocError, Global};
use std::hash::Hash;
use std::marker::Model;
use sugar_path::{List, Text};

/// Values by name, seen as the list of pairs.
#[derive(Drop)]
pub(crate) struct Entries<V> {
    pub(crate) map: IndexMap<Text, V>,
}

impl<V> Model for Entries<V> {
    ghost use Rattle.std.specs.Prelude as prelude;

    ghost Value = { prelude.List (prelude.List prelude.ℕ × V) };

    ghost view = { λ e. e.map.entries };
}

impl<V: FromJson> FromJson for Entries<V> {
    ghost use Rattle.std.specs.Prelude.{option_map};
    ghost use Rattle.serde_json.specs.Find.{as_str};
    ghost use Rattle.json_reading.specs.Reading.{list_by, pair_by};
    ghost use Rattle.pnp_core.specs.ManifestReading.{entries_of};

    ghost reads = { λ d. option_map entries_of (list_by (pair_by as_str V.reads) d) };

    fn from_json<J: JsonValue>(alloc: Global, value: &J) -> Result<Self, FromJsonError> {
        match value.as_items() {
            Some(items) => entries_of_items(alloc, items),
            None => Err(FromJsonError::OtherKind),
        }
    }
}

/// Values by a name that may be null, which stands for the empty text.
#[derive(Drop)]
pub(crate) struct NullableEntries<V> {
    pub(crate) map: IndexMap<Text, V>,
}

impl<V> Model for NullableEntries<V> {
    ghost use Rattle.std.specs.Prelude as prelude;

    ghost Value = { prelude.List (prelude.List prelude.ℕ × V) };

    ghost view = { λ e. e.map.entries };
}

impl<V: FromJson> FromJson for NullableEntries<V> {
    ghost use Rattle.std.specs.Prelude.{option_map, map};
    ghost use Rattle.serde_json.specs.Find.{as_str};
    ghost use Rattle.json_reading.specs.Reading.{list_by, nullable_by, pair_by};
    ghost use Rattle.pnp_core.specs.ManifestReading.{entries_of, named};

    ghost reads = { λ d.
        option_map (λ pairs. entries_of (map named pairs))
        (list_by (pair_by (nullable_by as_str) V.reads) d) };

    fn from_json<J: JsonValue>(alloc: Global, value: &J) -> Result<Self, FromJsonError> {
        match value.as_items() {
            Some(items) => named_entries_of_items(alloc, items),
            None => Err(FromJsonError::OtherKind),
        }
    }
}

/// Members, each once, seen as their list.
#[derive(Drop)]
pub(crate) struct Members<T: Eq + Hash> {
    pub(crate) set: IndexSet<T>,
}

impl<T: Eq + Hash> Model for Members<T> {
    ghost use Rattle.std.specs.Prelude as prelude;

    ghost Value = { prelude.List T };

    ghost view = { λ m. m.set.keys };
}

impl<T: FromJson + Eq + Hash> FromJson for Members<T> {
    ghost use Rattle.std.specs.Prelude.{option_map, []};
    ghost use Rattle.indexmap.specs.IndexSet as set;
    ghost use Rattle.json_reading.specs.Reading.{list_by};

    ghost reads = { λ d. option_map (set.insert_all T.eq []) (list_by T.reads d) };

    fn from_json<J: JsonValue>(alloc: Global, value: &J) -> Result<Self, FromJsonError> {
        let members = List::<T>::from_json(alloc, value)?;
        let members = distinct(alloc, members.into())?;
        Ok(members)
    }
}

// The map of an array's pairs: each is put in as it is read. A manifest has many maps, most of one or a few pairs, so
// each gives back the room that it doesn't use.
fn entries_of_items<V: FromJson, J: JsonValue>(
    alloc: Global,
    items: &[J],
) -> Result<Entries<V>, FromJsonError>
    ensures { ReadsAs result (option_map entries_of
        (items_by (pair_by as_str V.reads) (items_of (map J.stands_for items.now)))) }
{
    let mut map = IndexMap::with_capacity(alloc, items.len())?;
    for item in items {
        let (name, member) = <(Text, V)>::from_json(alloc, item)?;
        map.insert(name, member)?;
    }
    map.shrink_to_fit();
    Ok(Entries { map })
}

// A map of pairs, with the empty text for a null name.
fn named_entries_of_items<V: FromJson, J: JsonValue>(
    alloc: Global,
    items: &[J],
) -> Result<NullableEntries<V>, FromJsonError>
    ensures { ReadsAs result (option_map (λ pairs. entries_of (map named pairs))
        (items_by (pair_by (nullable_by as_str) V.reads) (items_of (map J.stands_for items.now)))) }
{
    let mut map = IndexMap::with_capacity(alloc, items.len())?;
    for item in items {
        let (name, member) = <(Option<Text>, V)>::from_json(alloc, item)?;
        map.insert(name_or_empty(alloc, name), member)?;
    }
    map.shrink_to_fit();
    Ok(NullableEntries { map })
}

// A name, or the empty text for null.
pub(crate) fn name_or_empty(alloc: Global, name: Option<Text>) -> Text
    ensures { result ≡ unwrap_or name [] }
{
    match name {
        Some(name) => name,
        None => Text::from(String::new(alloc)),
    }
}

// The set of a list.
fn distinct<T: Eq + Hash + Drop>(alloc: Global, members: Vec<T>) -> Result<Members<T>, AllocError>
    ensures { IfOk result (λ read. read ≡ set.insert_all T.eq [] members.items) }
{
    let mut set = IndexSet::new(alloc);
    for member in members {
        set.insert(member)?;
    }
    Ok(Members { set })
}
