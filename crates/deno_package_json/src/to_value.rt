// A package as JSON.
ghost use Rattle.std.specs.Prelude.{◌≡◌, IfOk, OnOk, fold, map, option_map};
ghost use Rattle.serde_json.specs.Data.{no_members, object, put as with_member, string};
ghost use Rattle.serde_json.specs.View.{view, items_of, items_view, members_view};
ghost use Rattle.deno_package_json.specs.Package.{package_of};
ghost use Rattle.deno_package_json.specs.Value.{
  json_fields,
  or_null,
  table_fields,
  table_value,
  text_fields,
  texts_value,
  value_of,
  with_fields,
};

use crate::package_json::PackageJson;
use indexmap::IndexMap;
use serde_json::{Map, Value, put};
use std::alloc::{AllocError, Global};
use sugar_path::{List, Text};

impl PackageJson {
    /// The package as the JSON of its file: thirteen fields, of which those that aren't there are null.
    pub fn to_value(&self, alloc: Global) -> Result<Value, AllocError>
        ensures { IfOk result (λ value. view value ≡ value_of (package_of self.now)) }
    {
        let mut fields = Map::new(alloc);
        put_json(alloc, &mut fields, self)?;
        put_texts(alloc, &mut fields, self)?;
        put_tables(alloc, &mut fields, self)?;
        Ok(Value::Object(fields))
    }
}

fn put_json(
    alloc: Global,
    fields: &mut Map<String, Value>,
    from: &PackageJson,
) -> Result<(), AllocError>
    ensures { OnOk result (members_view fields.new.entries
        ≡ with_fields (members_view fields.old.entries) (json_fields (package_of from.now))) }
{
    put(fields, alloc, "exports", object_or_null(&from.exports)?)?;
    put(fields, alloc, "imports", object_or_null(&from.imports)?)?;
    let bin = match &from.bin {
        Some(value) => value.clone()?,
        None => Value::Null,
    };
    put(fields, alloc, "bin", bin)
}

fn put_texts(
    alloc: Global,
    fields: &mut Map<String, Value>,
    from: &PackageJson,
) -> Result<(), AllocError>
    ensures { OnOk result (members_view fields.new.entries
        ≡ with_fields (members_view fields.old.entries) (text_fields (package_of from.now))) }
{
    put(fields, alloc, "main", text_or_null(alloc, &from.main)?)?;
    put(fields, alloc, "module", text_or_null(alloc, &from.module)?)?;
    put(fields, alloc, "name", text_or_null(alloc, &from.name)?)?;
    put(
        fields,
        alloc,
        "version",
        text_or_null(alloc, &from.version)?,
    )?;
    put(
        fields,
        alloc,
        "type",
        Value::try_from_str(alloc, from.typ.as_str())?,
    )?;
    put(fields, alloc, "types", text_or_null(alloc, &from.types)?)
}

fn put_tables(
    alloc: Global,
    fields: &mut Map<String, Value>,
    from: &PackageJson,
) -> Result<(), AllocError>
    ensures { OnOk result (members_view fields.new.entries
        ≡ with_fields (members_view fields.old.entries) (table_fields (package_of from.now))) }
{
    put(
        fields,
        alloc,
        "dependencies",
        table_or_null(alloc, &from.dependencies)?,
    )?;
    put(
        fields,
        alloc,
        "devDependencies",
        table_or_null(alloc, &from.dev_dependencies)?,
    )?;
    put(
        fields,
        alloc,
        "scripts",
        table_or_null(alloc, &from.scripts)?,
    )?;
    put(
        fields,
        alloc,
        "workspaces",
        texts_or_null(alloc, &from.workspaces)?,
    )
}

fn object_or_null(members: &Option<Map<String, Value>>) -> Result<Value, AllocError>
    ensures { IfOk result (λ value.
        view value ≡ or_null object (option_map (λ ms. members_view ms.entries) members.now)) }
{
    match members {
        Some(members) => Ok(Value::Object(members.clone()?)),
        None => Ok(Value::Null),
    }
}

fn text_or_null(alloc: Global, text: &Option<Text>) -> Result<Value, AllocError>
    ensures { IfOk result (λ value. view value ≡ or_null string text.now) }
{
    match text {
        Some(text) => Value::try_from_str(alloc, text.as_str()),
        None => Ok(Value::Null),
    }
}

fn table_or_null(alloc: Global, table: &Option<IndexMap<Text, Text>>) -> Result<Value, AllocError>
    ensures { IfOk result (λ value.
        view value ≡ or_null table_value (option_map (λ t. t.entries) table.now)) }
{
    match table {
        Some(table) => Ok(Value::Object(table_members(alloc, table)?)),
        None => Ok(Value::Null),
    }
}

fn table_members(
    alloc: Global,
    table: &IndexMap<Text, Text>,
) -> Result<Map<String, Value>, AllocError>
    ensures { IfOk result (λ ms.
        members_view ms.entries
        ≡ fold (λ found e. with_member e.0 (string e.1) found) no_members table.now.entries) }
{
    let mut members = Map::new(alloc);
    for (name, text) in table.iter() {
        put(
            &mut members,
            alloc,
            name.as_str(),
            Value::try_from_str(alloc, text.as_str())?,
        )?;
    }
    Ok(members)
}

fn texts_or_null(alloc: Global, texts: &Option<List<Text>>) -> Result<Value, AllocError>
    ensures { IfOk result (λ value. view value ≡ or_null texts_value texts.now) }
{
    match texts {
        Some(texts) => Ok(Value::Array(text_values(alloc, texts.as_slice())?)),
        None => Ok(Value::Null),
    }
}

fn text_values(alloc: Global, texts: &[Text]) -> Result<Vec<Value>, AllocError>
    ensures { IfOk result (λ values. items_view values.items ≡ items_of (map string texts.now)) }
{
    let mut values = Vec::new(alloc);
    for text in texts {
        values.push(Value::try_from_str(alloc, text.as_str())?)?;
    }
    Ok(values)
}
