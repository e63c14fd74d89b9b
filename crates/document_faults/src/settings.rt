// The fields that say what a project is.
use crate::fault::Fault;
use crate::format::{Format, MAPPING};
use crate::placed::Placed;
use serde_json::Value;

// The fields of a project, in the order in which they are read.
pub(crate) fn check_settings(document: &Placed<'_>, format: Format) -> Result<(), Fault> {
    let _cwd = document.required("cwd", format.fields())?.text()?;
    check_target(document)?;
    check_flag(document, "preserve_symlinks")?;
    check_flag(document, "node_modules")?;
    check_alias(document)?;
    check_mapping(document)?;
    check_lock(document)?;
    check_conditions(document)
}

fn check_target(document: &Placed<'_>) -> Result<(), Fault> {
    let Some(target) = document.member("target")? else {
        return Ok(());
    };
    match target.value.as_str() {
        Some("node" | "browser") => Ok(()),
        _ => Err(target.other_than("\"node\" or \"browser\"")),
    }
}

fn check_flag(document: &Placed<'_>, name: &str) -> Result<(), Fault> {
    match document.member(name)? {
        Some(flag) => flag.check_flag(),
        None => Ok(()),
    }
}

fn check_alias(document: &Placed<'_>) -> Result<(), Fault> {
    let Some(alias) = document.member("alias")? else {
        return Ok(());
    };
    let Some(members) = alias.value.as_object() else {
        return Err(alias.other_than("an object of texts"));
    };
    for (specifier, target) in members.iter() {
        if !target.is_string() {
            return Err(
                alias
                    .keyed(specifier.as_str(), target)?
                    .other_than("a text"),
            );
        }
    }
    Ok(())
}

fn check_lock(document: &Placed<'_>) -> Result<(), Fault> {
    match document.member("lock")? {
        Some(lock) if !lock.value.is_null() && !lock.value.is_string() => {
            Err(lock.other_than("the text of a lock file, or null"))
        }
        _ => Ok(()),
    }
}

fn check_conditions(document: &Placed<'_>) -> Result<(), Fault> {
    match document.member("conditions")? {
        Some(conditions) if !conditions.value.is_null() => {
            check_texts(&conditions, "a list of texts, or null")
        }
        _ => Ok(()),
    }
}

// Whether a value is a list of texts.
pub(crate) fn check_texts(texts: &Placed<'_>, wanted: &str) -> Result<(), Fault> {
    for (at, text) in texts.list(wanted)?.iter().enumerate() {
        if !text.is_string() {
            return Err(texts.item(at, text)?.other_than("a text"));
        }
    }
    Ok(())
}

fn check_mapping(document: &Placed<'_>) -> Result<(), Fault> {
    let Some(ts) = document.member("ts")? else {
        return Ok(());
    };
    if ts.value.is_null() {
        return Ok(());
    }
    if !ts.value.is_object() {
        return Err(ts.other_than("an object, or null"));
    }
    let _base = ts.required("base_url", &MAPPING)?.text()?;
    check_paths(&ts.required("paths", &MAPPING)?)?;
    match ts.member("version")? {
        Some(version) => check_version(&version),
        None => Ok(()),
    }
}

fn check_version(version: &Placed<'_>) -> Result<(), Fault> {
    match version.value.as_u64() {
        Some(1 | 2) => Ok(()),
        _ => Err(version.other_than("1 or 2")),
    }
}

fn check_paths(paths: &Placed<'_>) -> Result<(), Fault> {
    for (at, pair) in paths
        .list("a list of [pattern, [targets]]")?
        .iter()
        .enumerate()
    {
        if !is_path(pair) {
            check_path(&paths.item(at, pair)?)?;
        }
    }
    Ok(())
}

// Whether a value is a pattern with its targets.
fn is_path(pair: &Value) -> bool {
    match pair.as_array() {
        Some(pair) => match pair.as_slice() {
            [pattern, targets] => pattern.is_string() && are_texts(targets),
            _ => false,
        },
        None => false,
    }
}

fn are_texts(value: &Value) -> bool {
    match value.as_array() {
        Some(items) => items.iter().all(|item| item.is_string()),
        None => false,
    }
}

fn check_path(pair: &Placed<'_>) -> Result<(), Fault> {
    match pair.list("a list [pattern, [targets]]")? {
        [pattern, targets] => {
            let _pattern = pair.item(0, pattern)?.text()?;
            check_texts(&pair.item(1, targets)?, "a list of texts, the targets")
        }
        items => {
            let count = items.len();
            let what = format!(in pair.alloc;
                "a list [pattern, [targets]] of two, not of {count}"
            )?;
            Err(pair.fault(what.as_str()))
        }
    }
}
