// Objects whose members are all of one kind.
ghost use Rattle.std.specs.Prelude.{◌≡◌, Some, None, IfOk, IsErrOf};
ghost use Rattle.json_reading.specs.Kinds.{NamesRise, listed};
ghost use Rattle.json_reading.specs.Reading.{members_by};
ghost use Rattle.json_reading.specs.declared.error.FromJsonError.TheVariants.{OtherKind};

use crate::error::FromJsonError;
use crate::from_json::FromJson;
use crate::json_value::JsonValue;
use indexmap::IndexMap;
use std::alloc::Global;
use std::marker::Model;
use sugar_path::Text;

/// An object's members by their names, seen as the list of names and values. An `IndexMap` shows its room too, which no
/// reader promises, so it stands in a type of its own.
#[derive(Drop)]
pub struct Object<T> {
    /// The members in their order, which is that of their names' bytes.
    pub map: IndexMap<Text, T>,
}

impl<T> Model for Object<T> {
    ghost use Rattle.std.specs.Prelude as prelude;

    ghost Value = { prelude.List (prelude.List prelude.ℕ × T) };

    ghost view = { λ o. o.map.entries };
}

impl<T> Object<T> {
    ghost use Rattle.std.specs.Prelude.{◌≡◌, []};

    /// No members.
    pub fn new(alloc: Global) -> Object<T>
        ensures { result ≡ [] }
    {
        Object {
            map: IndexMap::new(alloc),
        }
    }
}

/// An object whose members are all of one kind.
impl<T: FromJson> FromJson for Object<T> {
    ghost use Rattle.json_reading.specs.Reading.{object_by};

    ghost reads = { object_by T.reads };

    fn from_json<J: JsonValue>(alloc: Global, value: &J) -> Result<Self, FromJsonError> {
        match value.members(alloc)? {
            Some(members) => Ok(Object {
                map: each_member(alloc, members)?,
            }),
            None => Err(FromJsonError::OtherKind),
        }
    }
}

// Each member, in order.
fn each_member<T: FromJson, J: JsonValue>(
    alloc: Global,
    members: Vec<(&str, &J)>,
) -> Result<IndexMap<Text, T>, FromJsonError>
    requires { NamesRise members.items }
    ensures ok { IfOk result (λ read.
        members_by T.reads (listed J.stands_for members.entry.items) ≡ Some read.entries) }
    ensures refused { IsErrOf result OtherKind
        → members_by T.reads (listed J.stands_for members.entry.items) ≡ None }
{
    let mut read = IndexMap::with_capacity(alloc, members.len())?;
    for (name, member) in members {
        let value = T::from_json(alloc, member)?;
        read.insert(Text::of(alloc, name)?, value)?;
    }
    Ok(read)
}
