// Which file of a package a subpath means by the package's field `exports`.
ghost use Rattle.std.specs.Prelude.{◌≡◌, IfOk, option_map};
ghost use Rattle.std.specs.Option.{option_copied};
ghost use Rattle.serde_json.specs.Find.{get_member};
ghost use Rattle.serde_json.specs.View.{view, items_view, members_view};
ghost use Rattle.package_exports.specs.Exported.{
  exported,
  target,
  first_target,
  targets,
  by_conditions,
  under,
  file_target,
  fit_of,
  is_before,
  first_of,
  first_fit,
  deciding,
  completed,
};
ghost use Rattle.package_exports.specs.ExportedView.{fit_view, decided_view};

use serde_json::{Map, Value};
use star_texts::{around_only_star, has_star, replaced, rest_between};
use std::alloc::{AllocError, Global};
use sugar_path::Text;

// A key with an only `*` that fits a subpath.
#[derive(Clone, Copy)]
pub(crate) struct Fit<'e> {
    pub(crate) key: &'e str,
    pub(crate) before: &'e str,
    pub(crate) rest: &'e str,
    pub(crate) value: &'e Value,
}

// What decides a subpath: a value, and what the `*` of its key stands for.
#[derive(Clone, Copy)]
pub(crate) struct Decided<'e> {
    pub(crate) value: &'e Value,
    pub(crate) rest: Option<&'e str>,
}

/// Which file of a package a subpath means under conditions, as a text that begins with `./`; `None` where the package
/// doesn't export it. The subpath is `.` for the package itself, and begins with `./` else. After the package entry
/// points of Node, but that conditions are taken in the order given, and `default` counts only where it is one of them.
pub fn exported(
    alloc: Global,
    exports: &Map<String, Value>,
    subpath: &str,
    conditions: &[Text],
) -> Result<Option<Text>, AllocError>
    ensures { IfOk result (λ file.
        file ≡ exported (members_view exports.now.entries) subpath.now conditions.now) }
{
    let Some(deciding) = deciding(exports, subpath) else {
        return Ok(None);
    };
    match target(deciding.value, conditions) {
        Some(text) => Ok(Some(completed(alloc, deciding.rest, text)?)),
        None => Ok(None),
    }
}

// A target with what a `*` stands for in place of each of its own.
fn completed(alloc: Global, rest: Option<&str>, text: &str) -> Result<Text, AllocError>
    ensures { IfOk result (λ made. made ≡ completed (option_copied rest.entry) text.now) }
{
    match rest {
        Some(rest) => Ok(Text::from(replaced(alloc, text, rest)?)),
        None => Text::of(alloc, text),
    }
}

// What decides a subpath: its own key, or a key with a `*`.
fn deciding<'e>(exports: &'e Map<String, Value>, subpath: &'e str) -> Option<Decided<'e>>
    ensures { option_map decided_view result ≡ deciding (members_view exports.now.entries) subpath.now }
{
    if !has_star(subpath) {
        if let Some(value) = own_value(exports, subpath) {
            return Some(Decided { value, rest: None });
        }
    }
    let fit = first_fit(exports, subpath)?;
    Some(Decided {
        value: fit.value,
        rest: Some(fit.rest),
    })
}

// The value under a key.
fn own_value<'e>(members: &'e Map<String, Value>, key: &str) -> Option<&'e Value>
    ensures { option_map (λ value. view value.now) result ≡ get_member key.now (members_view members.now.entries) }
{
    members.get(key)
}

// Of the keys that fit a subpath, the one that no other is before.
fn first_fit<'e>(exports: &'e Map<String, Value>, subpath: &'e str) -> Option<Fit<'e>>
    ensures { option_map fit_view result ≡ first_fit subpath.now (members_view exports.now.entries) }
{
    let mut first = None;
    for (key, value) in exports.iter() {
        first = first_of(first, fit_of(subpath, key.as_str(), value));
    }
    first
}

// How a key of `exports` fits a subpath.
fn fit_of<'e>(subpath: &'e str, key: &'e str, value: &'e Value) -> Option<Fit<'e>>
    ensures { option_map fit_view result ≡ fit_of subpath.now key.now (view value.now) }
{
    let (before, behind) = around_only_star(key)?;
    let rest = rest_between(subpath, before, behind)?;
    if rest.is_empty() {
        return None;
    }
    Some(Fit {
        key,
        before,
        rest,
        value,
    })
}

// The first of two keys, where there are any.
fn first_of<'e>(first: Option<Fit<'e>>, other: Option<Fit<'e>>) -> Option<Fit<'e>>
    ensures { option_map fit_view result ≡ first_of (option_map fit_view first.entry) (option_map fit_view other.entry) }
{
    let Some(fit) = first else {
        return other;
    };
    match other {
        Some(other) if is_before(&other, &fit) => Some(other),
        _ => Some(fit),
    }
}

// Whether a key that fits is before another.
fn is_before(fit: &Fit<'_>, other: &Fit<'_>) -> bool
    ensures { result ≡ is_before (fit_view fit.now) (fit_view other.now) }
{
    if fit.before.len() == other.before.len() {
        fit.key.len() > other.key.len()
    } else {
        fit.before.len() > other.before.len()
    }
}

// The target of a value.
#[cycle(targets)]
fn target<'e>(value: &'e Value, conditions: &[Text]) -> Option<&'e str>
    ensures { option_copied result ≡ target conditions.now (view value.now) }
{
    match value {
        Value::Null => None,
        Value::Bool(_) => None,
        Value::Number(_) => None,
        Value::String(text) => file_target(text.as_str()),
        Value::Array(items) => first_target(items, conditions),
        Value::Object(members) => by_conditions(members, conditions),
    }
}

// The target of the first member that has one.
#[cycle(targets)]
fn first_target<'e>(items: &'e [Value], conditions: &[Text]) -> Option<&'e str>
    ensures { option_copied result ≡ first_target conditions.now (items_view items.now) }
{
    for item in items {
        let found = target(item, conditions);
        if found.is_some() {
            return found;
        }
    }
    None
}

// The target under the first condition that has one.
#[cycle(targets)]
fn by_conditions<'e>(members: &'e Map<String, Value>, conditions: &[Text]) -> Option<&'e str>
    ensures { option_copied result ≡ by_conditions conditions.now
        (targets conditions.now (members_view members.now.entries)) }
{
    for condition in conditions {
        let found = under(members, condition.as_str(), conditions);
        if found.is_some() {
            return found;
        }
    }
    None
}

// The target under a condition.
#[cycle(targets)]
fn under<'e>(
    members: &'e Map<String, Value>,
    condition: &str,
    conditions: &[Text],
) -> Option<&'e str>
    ensures { option_copied result ≡ under condition.now
        (targets conditions.now (members_view members.now.entries)) }
{
    match members.get(condition) {
        Some(value) => target(value, conditions),
        None => None,
    }
}

// A text that names a file of the package.
fn file_target(text: &str) -> Option<&str>
    ensures { option_copied result ≡ file_target text.now }
{
    if text.starts_with("./") {
        Some(text)
    } else {
        None
    }
}
