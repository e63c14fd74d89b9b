// The entry that a package.json names.
ghost use Rattle.std.specs.Prelude.{◌≡◌, IfOk, map, nat_eq, option_map};
ghost use Rattle.std.specs.List.{list_all, starts_with};
ghost use Rattle.std.specs.Option.{option_copied};
ghost use Rattle.serde_json.specs.View.{view, members_view};
ghost use Rattle.serde_json.specs.Find.{get};
ghost use Rattle.swc_loader.specs.Entry.{entry, package_in, if_readable, is_readable, is_strict, is_text_or_nothing};
ghost use Rattle.swc_loader.specs.Entry.{is_browser_field, text_at, if_entry, first_text, entry_text, mark, read_bytes};
ghost use Rattle.swc_loader.specs.Entry as of;

use crate::{Conventions, Readings, TargetEnv};
use json_reading::holds_float;
use serde_json::{Map, Value};
use std::alloc::{AllocError, Global};
use sugar_path::{Bytes, Text};

/// The entry that a package.json names.
#[derive(Debug, Drop, PartialEq, Eq)]
pub enum PackageEntry {
    /// The file is no package.json that the order can read.
    Malformed,
    /// It names none.
    Missing,
    /// The text that it names, which is read from the package's folder.
    At(Text),
}

/// The entry that the content of a package.json names; a content that is missing, as of a file that can't be read, is
/// malformed.
pub fn entry_of(
    alloc: Global,
    readings: &mut Readings,
    conventions: &Conventions,
    target: TargetEnv,
    content: Option<Bytes>,
) -> Result<PackageEntry, AllocError>
    ensures { IfOk result (λ e. e ≡ entry conventions.now target content) }
{
    let Some(package_json) = package_in(alloc, readings, conventions, content)? else {
        return Ok(PackageEntry::Malformed);
    };
    match entry_text(conventions, target, package_json) {
        Some(text) => Ok(PackageEntry::At(Text::of(alloc, text)?)),
        None => Ok(PackageEntry::Missing),
    }
}

// The package.json that a content is, where the order can read it.
pub(crate) fn package_in<'r>(
    alloc: Global,
    readings: &'r mut Readings,
    conventions: &Conventions,
    content: Option<Bytes>,
) -> Result<Option<&'r Value>, AllocError>
    ensures { IfOk result (λ v.
        option_map (λ v. view v.now) v ≡ package_in conventions.now content) }
{
    let Some(bytes) = content else {
        return Ok(None);
    };
    let bytes = read_bytes(alloc, conventions, bytes)?;
    match readings.value_of(alloc, bytes)? {
        Some(package_json) => Ok(if_readable(conventions, package_json)),
        None => Ok(None),
    }
}

// The bytes of a package.json that are read: where the mark is passed over, those behind it.
fn read_bytes(alloc: Global, conventions: &Conventions, bytes: Bytes) -> Result<Bytes, AllocError>
    ensures { IfOk result (λ b. b ≡ read_bytes conventions.now bytes) }
{
    if conventions.byte_order_mark() && is_marked(bytes.as_slice()) {
        return Bytes::of(alloc, &bytes.as_slice()[3..]);
    }
    Ok(bytes)
}

// Whether a byte order mark stands in front.
fn is_marked(bytes: &[u8]) -> bool
    ensures { result ≡ starts_with nat_eq bytes.now mark }
{
    bytes.starts_with(&[0xEF, 0xBB, 0xBF])
}

// A JSON value, where it is a package.json that the order can read.
fn if_readable<'r>(conventions: &Conventions, package_json: &'r Value) -> Option<&'r Value>
    ensures { option_map (λ v. view v.now) result
        ≡ if_readable conventions.now (view package_json.now) }
{
    if is_readable(conventions, package_json) {
        Some(package_json)
    } else {
        None
    }
}

// Whether the order can read a package.json.
fn is_readable(conventions: &Conventions, package_json: &Value) -> bool
    ensures { result ≡ is_readable conventions.now (view package_json.now) }
{
    package_json.is_object()
        && (conventions.lenient_packages() || is_strict(conventions, package_json))
}

// Whether a package.json holds no float, and the fields that are read are of their kinds.
fn is_strict(conventions: &Conventions, package_json: &Value) -> bool
    ensures { result ≡ is_strict conventions.now (view package_json.now) }
{
    !holds_float(package_json)
        && are_texts_or_nothing(conventions.main_fields(), package_json)
        && is_browser_field(package_json.get("browser"))
}

// Whether each of these fields is missing, null or a text.
fn are_texts_or_nothing(fields: &[&str], package_json: &Value) -> bool
    ensures { result ≡ list_all (λ field. is_text_or_nothing (get field (view package_json.now)))
        (map (λ f. f.now) fields.now) }
{
    fields
        .iter()
        .all(|field| is_text_or_nothing(package_json.get(*field)))
}

// Whether a member is missing, null or a text.
fn is_text_or_nothing(member: Option<&Value>) -> bool
    ensures { result ≡ is_text_or_nothing (option_map (λ v. view v.now) member.entry) }
{
    matches!(member, None | Some(Value::Null) | Some(Value::String(_)))
}

// Whether the member `browser` is of a kind that it may have.
fn is_browser_field(member: Option<&Value>) -> bool
    ensures { result ≡ is_browser_field (option_map (λ v. view v.now) member.entry) }
{
    match member {
        Some(Value::Object(rules)) => are_rule_values(rules),
        _ => is_text_or_nothing(member),
    }
}

// Whether each value of a browser map is a text or a truth value.
fn are_rule_values(rules: &Map<String, Value>) -> bool
    ensures { result ≡ of.are_rule_values (members_view rules.now.entries) }
{
    for (_key, value) in rules.iter() {
        if !matches!(value, Value::String(_) | Value::Bool(_)) {
            return false;
        }
    }
    true
}

// The entry text of a package.json.
fn entry_text<'a>(
    conventions: &Conventions,
    target: TargetEnv,
    package_json: &'a Value,
) -> Option<&'a str>
    ensures { option_copied result ≡ entry_text conventions.now target (view package_json.now) }
{
    if target == TargetEnv::Browser {
        if let Some(text) = entry_at(conventions, "browser", package_json) {
            return Some(text);
        }
    }
    first_text(conventions, conventions.main_fields(), package_json)
}

// The entry text of the first field that has one.
fn first_text<'a>(
    conventions: &Conventions,
    fields: &[&str],
    package_json: &'a Value,
) -> Option<&'a str>
    ensures { option_copied result ≡
        first_text conventions.now (map (λ f. f.now) fields.now) (view package_json.now) }
{
    for field in fields {
        if let Some(text) = entry_at(conventions, field, package_json) {
            return Some(text);
        }
    }
    None
}

// The text of a field, where it may be an entry.
fn entry_at<'a>(conventions: &Conventions, field: &str, package_json: &'a Value) -> Option<&'a str>
    ensures { option_copied result ≡
        if_entry conventions.now (text_at field.now (view package_json.now)) }
{
    let text = text_at(field, package_json)?;
    if conventions.empty_entries() || text != "" {
        return Some(text);
    }
    None
}

// The text of a field, where it has one.
fn text_at<'a>(field: &str, package_json: &'a Value) -> Option<&'a str>
    ensures { option_copied result ≡ text_at field.now (view package_json.now) }
{
    package_json.get(field)?.as_str()
}
