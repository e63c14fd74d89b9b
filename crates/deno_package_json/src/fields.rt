// The fields of a package.json that are texts.
ghost use Rattle.std.specs.Prelude.{◌≡◌, IfOk};
ghost use Rattle.serde_json.specs.View.{view, number_view};
ghost use Rattle.deno_package_json.specs.Fields.{known_type, text_of, text_under, typ_in, types_in, whole_number};

use serde_json::{Number, Value};
use std::alloc::{AllocError, Global};
use sugar_path::Text;

/// A text, or a whole number in decimal.
pub(crate) fn text_of(alloc: Global, value: &Value) -> Result<Option<Text>, AllocError>
    ensures { IfOk result (λ found. found ≡ text_of (view value.now)) }
{
    match value {
        Value::String(text) => Ok(Some(Text::of(alloc, text.as_str())?)),
        Value::Number(number) => whole_number(alloc, number),
        _ => Ok(None),
    }
}

fn whole_number(alloc: Global, number: &Number) -> Result<Option<Text>, AllocError>
    ensures { IfOk result (λ found. found ≡ whole_number (number_view number.now)) }
{
    if let Some(n) = number.as_u64() {
        return Ok(Some(Text::from(format!(in alloc; "{n}")?)));
    }
    match number.as_i64() {
        Some(n) => Ok(Some(Text::from(format!(in alloc; "{n}")?))),
        None => Ok(None),
    }
}

/// The text of a field.
pub(crate) fn text_under(
    alloc: Global,
    value: &Value,
    name: &str,
) -> Result<Option<Text>, AllocError>
    ensures { IfOk result (λ found. found ≡ text_under name.now (view value.now)) }
{
    match value.get(name) {
        Some(member) => text_of(alloc, member),
        None => Ok(None),
    }
}

/// The field `typings` where it is there, else the field `types`.
pub(crate) fn types_in(alloc: Global, value: &Value) -> Result<Option<Text>, AllocError>
    ensures { IfOk result (λ found. found ≡ types_in (view value.now)) }
{
    match value.get("typings").or(value.get("types")) {
        Some(member) => text_of(alloc, member),
        None => Ok(None),
    }
}

/// The field `type`.
pub(crate) fn typ_in(alloc: Global, value: &Value) -> Result<Text, AllocError>
    ensures { IfOk result (λ typ. typ ≡ typ_in (view value.now)) }
{
    let typ = match value.get("type") {
        Some(member) => match member.as_str() {
            Some(text) => known_type(text),
            None => "none",
        },
        None => "none",
    };
    Text::of(alloc, typ)
}

fn known_type(text: &str) -> &str
    ensures { result.now ≡ known_type text.now }
{
    if text == "module" || text == "commonjs" {
        text
    } else {
        "none"
    }
}
