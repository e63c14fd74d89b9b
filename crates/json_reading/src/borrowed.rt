// A JSON value whose texts are borrowed from the text that it was read from.
ghost use Rattle.std.specs.Prelude.{◌≡◌, IfOk};
ghost use Rattle.json.specs.Value.{items_view, members_view, value_view};
ghost use Rattle.serde_json.specs.Data.{no_members};
ghost use Rattle.json_reading.specs.Borrowed.{
  data_of,
  data_of_members,
  has_number,
  items_have_number,
  members_have_number,
};
ghost use Rattle.json_reading.specs.Kinds.{NamesRise, listed};

use crate::json_value::JsonValue;
use json::Value;
use std::alloc::{AllocError, Global};
use std::collections::BTreeMap;

impl<'a> JsonValue for Value<'a> {
    ghost use Rattle.json.specs.Value.{value_view};
    ghost use Rattle.json_reading.specs.Borrowed.{data_of};

    ghost stands_for = { λ v. data_of (value_view v) };

    fn is_null(&self) -> bool {
        Value::is_null(self)
    }

    fn as_bool(&self) -> Option<bool> {
        Value::as_bool(self)
    }

    fn as_str(&self) -> Option<&str> {
        Value::as_str(self)
    }

    fn as_items(&self) -> Option<&[Value<'a>]> {
        match self {
            Value::Array(items) => Some(items.as_slice()),
            _ => None,
        }
    }

    fn member(&self, name: &str) -> Option<&Value<'a>> {
        self.get(name)
    }

    fn members(&self, alloc: Global) -> Result<Option<Vec<(&str, &Value<'a>)>>, AllocError> {
        match self {
            Value::Object(members) => Ok(Some(list_of(alloc, last_ones(alloc, members)?)?)),
            _ => Ok(None),
        }
    }
}

// The members by their names, each with its last value.
fn last_ones<'m, 'a>(
    alloc: Global,
    members: &'m [(&'a str, Value<'a>)],
) -> Result<BTreeMap<&'m str, &'m Value<'a>>, AllocError>
    ensures { IfOk result (λ map. listed (λ v. data_of (value_view v)) map.entries
        ≡ data_of_members (members_view members.now) no_members) }
{
    let mut map = BTreeMap::new(alloc);
    for member in members {
        map.insert(member.0, &member.1)?;
    }
    Ok(map)
}

// The entries of a map, in its order.
fn list_of<'m, 'a>(
    alloc: Global,
    map: BTreeMap<&'m str, &'m Value<'a>>,
) -> Result<Vec<(&'m str, &'m Value<'a>)>, AllocError>
    ensures entries { IfOk result (λ list. list.items ≡ map.entry.entries) }
    ensures rise { IfOk result (λ list. NamesRise list.items) }
{
    let mut list = Vec::with_capacity(alloc, map.len())?;
    for entry in map {
        list.push(entry)?;
    }
    Ok(list)
}

/// Whether a number stands in the value, at any depth.
#[cycle(numbers)]
pub(crate) fn holds_number(value: &Value<'_>) -> bool
    ensures { result ≡ has_number (value_view value.now) }
{
    match value {
        Value::Null => false,
        Value::Bool(_) => false,
        Value::Number(_) => true,
        Value::String(_) => false,
        Value::Array(items) => items_hold(items),
        Value::Object(members) => members_hold(members),
    }
}

#[cycle(numbers)]
fn items_hold(items: &[Value<'_>]) -> bool
    ensures { result ≡ items_have_number (items_view items.now) }
{
    for item in items {
        if holds_number(item) {
            return true;
        }
    }
    false
}

#[cycle(numbers)]
fn members_hold<'a>(members: &[(&'a str, Value<'a>)]) -> bool
    ensures { result ≡ members_have_number (members_view members.now) }
{
    for member in members {
        if holds_number(&member.1) {
            return true;
        }
    }
    false
}
