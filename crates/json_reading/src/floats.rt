// Whether a JSON value holds a float.
ghost use Rattle.std.specs.Prelude.{◌≡◌};
ghost use Rattle.serde_json.specs.View.{view, items_view, members_view};
ghost use Rattle.serde_json.specs.Written.{has_float, items_have_float, members_have_float};

use serde_json::{Map, Value};

/// Whether a number of the value, at any depth, is a float: one with a fraction or an exponent, or outside 64 bits.
#[cycle(floats)]
pub fn holds_float(value: &Value) -> bool
    ensures { result ≡ has_float (view value.now) }
{
    match value {
        Value::Null => false,
        Value::Bool(_) => false,
        Value::Number(n) => n.is_f64(),
        Value::String(_) => false,
        Value::Array(items) => items_hold(items),
        Value::Object(members) => members_hold(members),
    }
}

#[cycle(floats)]
fn items_hold(items: &[Value]) -> bool
    ensures { result ≡ items_have_float (items_view items.now) }
{
    for item in items {
        if holds_float(item) {
            return true;
        }
    }
    false
}

#[cycle(floats)]
fn members_hold(members: &Map<String, Value>) -> bool
    ensures { result ≡ members_have_float (members_view members.now.entries) }
{
    for (_key, member) in members.iter() {
        if holds_float(member) {
            return true;
        }
    }
    false
}
