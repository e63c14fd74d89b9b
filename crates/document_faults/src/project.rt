// Whether a document's settings make a project.
use crate::fault::Fault;
use crate::lock::check_lock;
use crate::placed::{Placed, shown_text};
use serde_json::Value;
use sugar_path::is_clean;

// What is against the settings: the working folder, then the mapping, then the lock.
pub(crate) fn check_project(document: &Placed<'_>) -> Result<(), Fault> {
    check_folder(document, "cwd")?;
    if let Some(ts) = document.member("ts")? {
        check_folder(&ts, "base_url")?;
        check_patterns(&ts)?;
    }
    match document.member("lock")? {
        Some(lock) => check_lock(&lock),
        None => Ok(()),
    }
}

// A folder's path is clean and absolute.
fn check_folder(settings: &Placed<'_>, name: &str) -> Result<(), Fault> {
    let Some(folder) = settings.member(name)? else {
        return Ok(());
    };
    if is_clean(folder.text()?) {
        Ok(())
    } else {
        Err(folder.other_than("a clean absolute path"))
    }
}

fn check_patterns(ts: &Placed<'_>) -> Result<(), Fault> {
    let Some(paths) = ts.member("paths")? else {
        return Ok(());
    };
    for (at, pair) in paths
        .list("a list of [pattern, [targets]]")?
        .iter()
        .enumerate()
    {
        let pair = paths.item(at, pair)?;
        if let [pattern, targets] = pair.list("a list [pattern, [targets]]")? {
            check_pattern(&pair, pattern, targets)?;
        }
    }
    Ok(())
}

// A pattern has a target, and one `*`, or none and one target alone.
fn check_pattern(pair: &Placed<'_>, pattern: &Value, targets: &Value) -> Result<(), Fault> {
    let pattern = pair.item(0, pattern)?.text()?;
    let count = pair
        .item(1, targets)?
        .list("a list of texts, the targets")?
        .len();
    let stars = pattern.matches('*').count();
    let pattern = shown_text(pair.alloc, pattern)?;
    let what = if count == 0 {
        format!(in pair.alloc; "the pattern {pattern} has no target")?
    } else if stars > 1 {
        format!(in pair.alloc;
            "the pattern {pattern} holds {stars} times \"*\", and at most one may stand there"
        )?
    } else if stars == 0 && count > 1 {
        format!(in pair.alloc;
            "the pattern {pattern} holds no \"*\", and has {count} targets in place of one"
        )?
    } else {
        return Ok(());
    };
    Err(pair.fault(what.as_str()))
}
