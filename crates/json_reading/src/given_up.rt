// What stands in a JSON value with borrowed texts, given up by it, so that the value doesn't outlive its reading.
ghost use Rattle.std.specs.Prelude.{◌≡◌, map, option_map};
ghost use Rattle.json.specs.Find.{get_member};
ghost use Rattle.json.specs.Value.{members_view, value_view};
ghost use Rattle.serde_json.specs.Find.{as_array, get};
ghost use Rattle.serde_json.specs.View.{items_of};
ghost use Rattle.json_reading.specs.Borrowed.{data_of};

use json::Value;

/// The items of an array.
pub fn into_items<'a>(value: Value<'a>) -> Option<Vec<Value<'a>>>
    ensures { option_map (λ items. items_of (map (λ v. data_of (value_view v)) items.items)) result
        ≡ as_array (data_of (value_view value.entry)) }
{
    match value {
        Value::Array(items) => Some(items),
        _ => None,
    }
}

/// The member of that name, where the value is an object that has one.
pub fn into_member<'a>(value: Value<'a>, name: &str) -> Option<Value<'a>>
    ensures { option_map (λ member. data_of (value_view member)) result
        ≡ get name.now (data_of (value_view value.entry)) }
{
    match value {
        Value::Object(members) => last_of(members, name),
        _ => None,
    }
}

// The last member of that name.
fn last_of<'a>(members: Vec<(&'a str, Value<'a>)>, name: &str) -> Option<Value<'a>>
    ensures { option_map value_view result ≡ get_member name.now (members_view members.entry.items) }
{
    let mut found = None;
    for (key, member) in members {
        if key == name {
            found = Some(member);
        }
    }
    found
}
