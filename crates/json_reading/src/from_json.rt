// Values read from JSON, one reader for each shape.
ghost use Rattle.std.specs.Prelude.{◌≡◌, Option, Some, None, IfOk, IsErrOf, map};
ghost use Rattle.serde_json.specs.Data.{Data};
ghost use Rattle.serde_json.specs.View.{items_of};
ghost use Rattle.json_reading.specs.Reading.{ReadsAs, two_by, items_by};
ghost use Rattle.json_reading.specs.declared.error.FromJsonError.TheVariants.{OtherKind};

use crate::error::FromJsonError;
use crate::json_value::JsonValue;
use std::alloc::Global;
use sugar_path::{List, Text};

/// What can be read from a JSON value.
pub trait FromJson: Drop {
    /// What is read, and nothing where the value is of another kind.
    ghost reads: { Data → Option Self };

    /// What the value is read as. `OtherKind` comes exactly where nothing is read, unless memory runs out before that
    /// is told.
    fn from_json<J: JsonValue>(alloc: Global, value: &J) -> Result<Self, FromJsonError>
        ensures { ReadsAs result (reads (J.stands_for value.now)) };
}

/// The text of a string.
impl FromJson for Text {
    ghost use Rattle.serde_json.specs.Find.{as_str};

    ghost reads = { as_str };

    fn from_json<J: JsonValue>(alloc: Global, value: &J) -> Result<Self, FromJsonError> {
        match value.as_str() {
            Some(text) => Ok(Text::of(alloc, text)?),
            None => Err(FromJsonError::OtherKind),
        }
    }
}

/// `true` or `false`.
impl FromJson for bool {
    ghost use Rattle.serde_json.specs.Find.{as_bool};

    ghost reads = { as_bool };

    fn from_json<J: JsonValue>(_alloc: Global, value: &J) -> Result<Self, FromJsonError> {
        match value.as_bool() {
            Some(flag) => Ok(flag),
            None => Err(FromJsonError::OtherKind),
        }
    }
}

/// `None` for null.
impl<T: FromJson> FromJson for Option<T> {
    ghost use Rattle.json_reading.specs.Reading.{nullable_by};

    ghost reads = { nullable_by T.reads };

    fn from_json<J: JsonValue>(alloc: Global, value: &J) -> Result<Self, FromJsonError> {
        if value.is_null() {
            return Ok(None);
        }
        Ok(Some(T::from_json(alloc, value)?))
    }
}

/// An array of exactly two.
impl<A: FromJson, B: FromJson> FromJson for (A, B) {
    ghost use Rattle.json_reading.specs.Reading.{pair_by};

    ghost reads = { pair_by A.reads B.reads };

    fn from_json<J: JsonValue>(alloc: Global, value: &J) -> Result<Self, FromJsonError> {
        match value.as_items() {
            Some(items) => pair_of(alloc, items),
            None => Err(FromJsonError::OtherKind),
        }
    }
}

// Exactly two items.
fn pair_of<A: FromJson, B: FromJson, J: JsonValue>(
    alloc: Global,
    items: &[J],
) -> Result<(A, B), FromJsonError>
    ensures { ReadsAs result (two_by A.reads B.reads (items_of (map J.stands_for items.now))) }
{
    if items.len() != 2 {
        return Err(FromJsonError::OtherKind);
    }
    let first = A::from_json(alloc, &items[0])?;
    let second = B::from_json(alloc, &items[1])?;
    Ok((first, second))
}

/// An array of any length.
impl<T: FromJson> FromJson for List<T> {
    ghost use Rattle.json_reading.specs.Reading.{list_by};

    ghost reads = { list_by T.reads };

    fn from_json<J: JsonValue>(alloc: Global, value: &J) -> Result<Self, FromJsonError> {
        match value.as_items() {
            Some(items) => Ok(List::from(each(alloc, items)?)),
            None => Err(FromJsonError::OtherKind),
        }
    }
}

// Each item, in order.
fn each<T: FromJson, J: JsonValue>(alloc: Global, items: &[J]) -> Result<Vec<T>, FromJsonError>
    ensures ok { IfOk result (λ read.
        items_by T.reads (items_of (map J.stands_for items.now)) ≡ Some read.items) }
    ensures refused { IsErrOf result OtherKind
        → items_by T.reads (items_of (map J.stands_for items.now)) ≡ None }
{
    let mut read = Vec::with_capacity(alloc, items.len())?;
    for item in items {
        read.push(T::from_json(alloc, item)?)?;
    }
    Ok(read)
}
