// What a reader asks of a JSON value, whoever owns its texts.
ghost use Rattle.std.specs.Prelude.{◌≡◌, IfOk, IfSome, map, option_map};
ghost use Rattle.serde_json.specs.Data.{Data};
ghost use Rattle.serde_json.specs.Find.{as_array, as_bool, as_object, as_str, get};
ghost use Rattle.serde_json.specs.View.{items_of, members_view, view};
ghost use Rattle.json_reading.specs.Kinds.{NamesRise, is_null, listed};

use serde_json::{Map, Value};
use std::alloc::{AllocError, Global};

/// A JSON value (RFC 8259) that is read: it owns its texts, as `serde_json::Value` does, or borrows them, as
/// `json::Value`.
pub trait JsonValue: Sized {
    /// The data that the value stands for.
    ghost stands_for: { Self → Data };

    fn is_null(&self) -> bool
        ensures { result ≡ is_null (stands_for self.now) };

    fn as_bool(&self) -> Option<bool>
        ensures { result ≡ as_bool (stands_for self.now) };

    fn as_str(&self) -> Option<&str>
        ensures { option_map (λ text. text.now) result ≡ as_str (stands_for self.now) };

    /// The items of an array.
    fn as_items(&self) -> Option<&[Self]>
        ensures { option_map (λ items. items_of (map stands_for items.now)) result ≡ as_array (stands_for self.now) };

    /// The member of that name, where this is an object that has one.
    fn member(&self, name: &str) -> Option<&Self>
        ensures { option_map (λ member. stands_for member.now) result ≡ get name.now (stands_for self.now) };

    /// The members of an object in the byte order of their names, each name once.
    fn members(&self, alloc: Global) -> Result<Option<Vec<(&str, &Self)>>, AllocError>
        ensures members { IfOk result (λ found.
            option_map (λ members. listed stands_for members.items) found
            ≡ as_object (stands_for self.now)) }
        ensures rise { IfOk result (λ found. IfSome found (λ members. NamesRise members.items)) };
}

impl JsonValue for Value {
    ghost stands_for = { view };

    fn is_null(&self) -> bool {
        Value::is_null(self)
    }

    fn as_bool(&self) -> Option<bool> {
        Value::as_bool(self)
    }

    fn as_str(&self) -> Option<&str> {
        Value::as_str(self)
    }

    fn as_items(&self) -> Option<&[Value]> {
        match self {
            Value::Array(items) => Some(items.as_slice()),
            _ => None,
        }
    }

    fn member(&self, name: &str) -> Option<&Value> {
        self.get(name)
    }

    fn members(&self, alloc: Global) -> Result<Option<Vec<(&str, &Value)>>, AllocError> {
        match self {
            Value::Object(members) => Ok(Some(list_of(alloc, members)?)),
            _ => Ok(None),
        }
    }
}

// The members of a map, in its order.
fn list_of<'a>(
    alloc: Global,
    members: &'a Map<String, Value>,
) -> Result<Vec<(&'a str, &'a Value)>, AllocError>
    ensures members { IfOk result (λ list. listed view list.items ≡ members_view members.now.entries) }
    ensures rise { IfOk result (λ list. NamesRise list.items) }
{
    let mut list = Vec::with_capacity(alloc, members.len())?;
    for (name, member) in members.iter() {
        list.push((name.as_str(), member))?;
    }
    Ok(list)
}
