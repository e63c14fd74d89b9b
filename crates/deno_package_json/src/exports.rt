// The fields of a package.json that are kept as JSON.
ghost use Rattle.std.specs.Prelude.{◌≡◌, ◌&&◌, IfOk, codes, option_map};
ghost use Rattle.serde_json.specs.Find.{get, as_object};
ghost use Rattle.serde_json.specs.View.{view, members_view};
ghost use Rattle.deno_package_json.specs.Exports.{
  exports_in,
  exports_of,
  has_condition,
  has_mixed_exports,
  has_subpath,
  is_subpath,
  main_entry,
};
ghost use Rattle.deno_package_json.specs.Fields.{imports_in};

use serde_json::{Map, Value};
use std::alloc::{AllocError, Global};

/// The field `exports` as an object whose keys are subpaths.
pub(crate) fn exports_in(
    alloc: Global,
    value: &Value,
) -> Result<Option<Map<String, Value>>, AllocError>
    ensures { IfOk result (λ found.
        option_map (λ ms. members_view ms.entries) found ≡ exports_in (view value.now)) }
{
    match value.get("exports") {
        Some(exports) => exports_of(alloc, exports),
        None => Ok(None),
    }
}

fn exports_of(alloc: Global, value: &Value) -> Result<Option<Map<String, Value>>, AllocError>
    ensures { IfOk result (λ found.
        option_map (λ ms. members_view ms.entries) found ≡ exports_of (view value.now)) }
{
    match value {
        Value::String(_) => Ok(Some(main_entry(alloc, value)?)),
        Value::Array(_) => Ok(Some(main_entry(alloc, value)?)),
        Value::Object(members) => if has_condition(members) {
            Ok(Some(main_entry(alloc, value)?))
        } else {
            object_of(value)
        },
        _ => Ok(None),
    }
}

// The value as what the main entry exports.
fn main_entry(alloc: Global, value: &Value) -> Result<Map<String, Value>, AllocError>
    ensures { IfOk result (λ ms. members_view ms.entries ≡ main_entry (view value.now)) }
{
    let mut members = Map::new(alloc);
    serde_json::put(&mut members, alloc, ".", value.clone()?)?;
    Ok(members)
}

/// A copy of an object's members.
pub(crate) fn object_of(value: &Value) -> Result<Option<Map<String, Value>>, AllocError>
    ensures { IfOk result (λ found.
        option_map (λ ms. members_view ms.entries) found ≡ as_object (view value.now)) }
{
    match value.clone()? {
        Value::Object(members) => Ok(Some(members)),
        _ => Ok(None),
    }
}

/// Whether the field `exports` is an object with subpaths and conditions.
pub(crate) fn has_mixed_exports(value: &Value) -> bool
    ensures { result ≡ has_mixed_exports (view value.now) }
{
    match value.get("exports") {
        Some(Value::Object(members)) => has_subpath(members) && has_condition(members),
        _ => false,
    }
}

fn has_subpath(members: &Map<String, Value>) -> bool
    ensures { result ≡ has_subpath (members_view members.now.entries) }
{
    for (key, _) in members.iter() {
        if is_subpath(key.as_str()) {
            return true;
        }
    }
    false
}

// Whether some key is a condition.
fn has_condition(members: &Map<String, Value>) -> bool
    ensures { result ≡ has_condition (members_view members.now.entries) }
{
    for (key, _) in members.iter() {
        if !is_subpath(key.as_str()) {
            return true;
        }
    }
    false
}

fn is_subpath(key: &str) -> bool
    ensures { result ≡ is_subpath key.now }
{
    match key.as_bytes() {
        [first, ..] => *first == b'.',
        [] => false,
    }
}

/// A copy of the field `bin`.
pub(crate) fn bin_in(value: &Value) -> Result<Option<Value>, AllocError>
    ensures { IfOk result (λ found. option_map view found ≡ get (codes "bin") (view value.now)) }
{
    match value.get("bin") {
        Some(bin) => Ok(Some(bin.clone()?)),
        None => Ok(None),
    }
}

/// A copy of the field `imports`.
pub(crate) fn imports_in(value: &Value) -> Result<Option<Map<String, Value>>, AllocError>
    ensures { IfOk result (λ found.
        option_map (λ ms. members_view ms.entries) found ≡ imports_in (view value.now)) }
{
    match value.get("imports") {
        Some(imports) => object_of(imports),
        None => Ok(None),
    }
}
