// The fields of a package.json that are objects and lists of texts.
ghost use Rattle.std.specs.Prelude.{◌≡◌, IfOk, option_map};
ghost use Rattle.serde_json.specs.View.{view, items_view, members_view};
ghost use Rattle.deno_package_json.specs.Fields.{table_of, table_under, texts_of, texts_under};
ghost use Rattle.deno_package_json.specs.LoadedAgain.{IsOrdered, IsOrderedIfThere};

use crate::fields::text_of;
use indexmap::IndexMap;
use serde_json::{Map, Value};
use std::alloc::{AllocError, Global};
use sugar_path::{List, Text};

/// The object under a name, without the values that don't count as text.
pub(crate) fn table_under(
    alloc: Global,
    value: &Value,
    name: &str,
) -> Result<Option<IndexMap<Text, Text>>, AllocError>
    ensures table { IfOk result (λ found.
        option_map (λ table. table.entries) found ≡ table_under name.now (view value.now)) }
    ensures ordered { IfOk result (λ found.
        IsOrderedIfThere (option_map (λ table. table.entries) found)) }
{
    match value.get(name) {
        Some(Value::Object(members)) => Ok(Some(table_of(alloc, members)?)),
        _ => Ok(None),
    }
}

fn table_of(alloc: Global, members: &Map<String, Value>) -> Result<IndexMap<Text, Text>, AllocError>
    ensures table { IfOk result (λ table.
        table.entries ≡ table_of (members_view members.now.entries)) }
    ensures ordered { IfOk result (λ table. IsOrdered table.entries) }
{
    let mut table = IndexMap::with_capacity(alloc, members.len())?;
    for (name, member) in members.iter() {
        if let Some(text) = text_of(alloc, member)? {
            table.insert(Text::of(alloc, name.as_str())?, text)?;
        }
    }
    Ok(table)
}

/// The list under a name, without the members that don't count as text.
pub(crate) fn texts_under(
    alloc: Global,
    value: &Value,
    name: &str,
) -> Result<Option<List<Text>>, AllocError>
    ensures { IfOk result (λ found. found ≡ texts_under name.now (view value.now)) }
{
    match value.get(name) {
        Some(Value::Array(items)) => Ok(Some(List::from(texts_of(alloc, items)?))),
        _ => Ok(None),
    }
}

fn texts_of(alloc: Global, items: &[Value]) -> Result<Vec<Text>, AllocError>
    ensures { IfOk result (λ texts. texts.items ≡ texts_of (items_view items.now)) }
{
    let mut texts = Vec::new(alloc);
    for item in items {
        if let Some(text) = text_of(alloc, item)? {
            texts.push(text)?;
        }
    }
    Ok(texts)
}
