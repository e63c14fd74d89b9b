// Puts texts and members behind what is being written.
ghost use Rattle.std.specs.Prelude.{◌≡◌, ◌∷◌, ◌++◌, [], OnOk, false, string_bytes};
ghost use Rattle.std.specs.List.{list_all};
ghost use Rattle.json.specs.Run.{is_plain};
ghost use Rattle.serde_json.specs.Data.{member, no_members, null, object, string};
ghost use Rattle.serde_json.specs.View.{view};
ghost use Rattle.serde_json.specs.Written.{comma_if, compact_text, has_float};
ghost use Rattle.report_core.specs.Puts.{IsPut};
ghost use Rattle.trail_texts.specs.TrailTexts.{text_or_null};

use serde_json::Value;
use std::alloc::AllocError;
use sugar_path::Text;

/// Puts a text in quotes, with its escapes.
pub fn put_text(out: &mut String, text: &str) -> Result<(), AllocError>
    ensures { OnOk result (IsPut (string_bytes out.old) (string_bytes out.new) (string text.now)) }
{
    if !is_plain_text(text) {
        return put_escaped(out, text);
    }
    out.push_str("\"")?;
    out.push_str(text)?;
    out.push_str("\"")
}

// A text of which some byte needs an escape.
fn put_escaped(out: &mut String, text: &str) -> Result<(), AllocError>
    ensures { OnOk result (IsPut (string_bytes out.old) (string_bytes out.new) (string text.now)) }
{
    let value = Value::try_from_str(*out.allocator(), text)?;
    put_value(out, &value)
}

/// Puts a value that has no float.
pub(crate) fn put_value(out: &mut String, value: &Value) -> Result<(), AllocError>
    requires { has_float (view value.now) ≡ false }
    ensures { OnOk result (IsPut (string_bytes out.old) (string_bytes out.new) (view value.now)) }
{
    let text = value.to_string(*out.allocator())?;
    out.push_str(text.as_str())
}

// Whether no byte of a text needs an escape.
fn is_plain_text(text: &str) -> bool
    ensures { result ≡ list_all is_plain text.now }
{
    text.as_bytes().iter().all(|byte| is_plain(*byte))
}

fn is_plain(byte: u8) -> bool
    ensures { result ≡ is_plain byte }
{
    b' ' <= byte && byte != b'"' && byte != b'\\'
}

/// Puts the key of a member, with a comma in front where other members stand before it.
pub fn put_member(out: &mut String, later: bool, key: &str) -> Result<(), AllocError>
    ensures { OnOk result (string_bytes out.new
        ≡ string_bytes out.old ++ (comma_if later ++ (compact_text (string key.now) ++ 58 ∷ []))) }
{
    put_comma(out, later)?;
    put_text(out, key)?;
    out.push_str(":")
}

/// Puts a comma, where other items or members stand before.
pub fn put_comma(out: &mut String, later: bool) -> Result<(), AllocError>
    ensures { OnOk result (string_bytes out.new ≡ string_bytes out.old ++ comma_if later) }
{
    if later {
        out.push_str(",")?;
    }
    Ok(())
}

// Puts a text that may be absent: null where it is.
pub(crate) fn put_optional(out: &mut String, text: &Option<Text>) -> Result<(), AllocError>
    ensures { OnOk result (IsPut (string_bytes out.old) (string_bytes out.new) (text_or_null text.now)) }
{
    match text {
        None => put_null(out),
        Some(text) => put_text(out, text.as_str()),
    }
}

pub(crate) fn put_null(out: &mut String) -> Result<(), AllocError>
    ensures { OnOk result (IsPut (string_bytes out.old) (string_bytes out.new) null) }
{
    out.push_str("null")
}

// Puts an object that has one text.
pub(crate) fn put_one(out: &mut String, key: &str, text: &str) -> Result<(), AllocError>
    ensures { OnOk result (IsPut (string_bytes out.old) (string_bytes out.new)
        (object (member key.now (string text.now) no_members))) }
{
    out.push_str("{")?;
    put_member(out, false, key)?;
    put_text(out, text)?;
    out.push_str("}")
}
