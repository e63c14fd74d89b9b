// The members of an object.
ghost use Rattle.std.specs.Prelude.{◌≡◌};
ghost use Rattle.json_reading.specs.Reading.{ReadsAs, field_by};
ghost use Rattle.json_reading.specs.Reading as reading;

use crate::error::FromJsonError;
use crate::from_json::FromJson;
use crate::json_value::JsonValue;
use std::alloc::Global;

/// A member that has to be there. `OtherKind` comes where the value is no object, where the object lacks it, and where
/// it is of another kind.
pub fn field<T: FromJson, J: JsonValue>(
    alloc: Global,
    value: &J,
    name: &str,
) -> Result<T, FromJsonError>
    ensures { ReadsAs result (field_by name.now T.reads (J.stands_for value.now)) }
{
    match value.member(name) {
        Some(member) => T::from_json(alloc, member),
        None => Err(FromJsonError::OtherKind),
    }
}

/// A member, or what stands for it where it is absent, also where the value is no object. A null member isn't absent.
pub fn field_or<T: FromJson, J: JsonValue>(
    alloc: Global,
    value: &J,
    name: &str,
    absent: T,
) -> Result<T, FromJsonError>
    ensures { ReadsAs result (reading.field_or name.now absent T.reads (J.stands_for value.now)) }
{
    match value.member(name) {
        Some(member) => T::from_json(alloc, member),
        None => Ok(absent),
    }
}
