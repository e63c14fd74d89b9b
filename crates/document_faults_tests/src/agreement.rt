// What is told beside the cause by which a document is refused: both name one field.
use crate::told::{fields, lines_in, projects};
use document_core::{Document, DocumentError, line_of_cause, project_in, read_document, tree_of};
use std::alloc::Global;
use std::test::Fail;

// What a document comes to, but for its requests.
fn judged(alloc: Global, bytes: &[u8]) -> Result<(), DocumentError> {
    let Document {
        settings,
        lock,
        files,
        requests: _,
    } = read_document(alloc, bytes)?;
    let _tree = tree_of(alloc, files.as_slice())?;
    let _project = project_in(alloc, settings, &lock)?;
    Ok(())
}

// The line of the cause against a document.
fn cause_of(alloc: Global, bytes: &[u8]) -> Result<String, Fail> {
    match judged(alloc, bytes) {
        Ok(()) => Ok(String::from_str(alloc, "accepted")?),
        Err(DocumentError::Refused(cause)) => Ok(line_of_cause(alloc, &cause)?),
        Err(DocumentError::NoMemory) => Err(Fail::from("no memory")),
    }
}

// Whether a line that is told is of the field that a cause names.
fn is_of(line: &str, cause: &str) -> bool {
    let mut words = cause.split_whitespace().skip(1);
    let kind = words.next().unwrap_or("");
    let first = words.next().unwrap_or("");
    let second = words.next().unwrap_or("");
    match kind {
        "bad-field" => line.starts_with(first) || is_of_missing(line, first),
        "bad-tree" => line.starts_with("files["),
        "bad-project" if first == "LockParser" => line.starts_with("lock, line "),
        "bad-project" if first == "SettingsFault" => line.contains(second),
        "bad-project" => line
            .strip_prefix("ts.paths[")
            .is_some_and(|rest| rest.starts_with(second)),
        _ => false,
    }
}

// Whether a line says that a field of the document is missing.
fn is_of_missing(line: &str, field: &str) -> bool {
    match line.strip_prefix("the document: ") {
        Some("an object, not a list" | "an object, not 7") => field == "cwd",
        Some(rest) => match rest.split('"').nth(1) {
            Some(missing) => missing == field,
            None => false,
        },
        None => false,
    }
}

fn check_row(alloc: Global, row: &str) -> Result<bool, Fail> {
    let Some(given) = row.strip_prefix("resolve ") else {
        return Ok(true);
    };
    let (document, _) = given.split_once(" => ").ok_or("a row without lines")?;
    let cause = cause_of(alloc, document.as_bytes())?;
    Ok(is_of(lines_in(row), cause.as_str()))
}

#[test]
fn fields_are_those_of_the_cause(rt: HostRuntime) -> Result<(), Fail> {
    for row in fields().lines() {
        assert!(rt; check_row(rt.alloc(), row)?, "{row}");
    }
    Ok(())
}

#[test]
fn projects_are_those_of_the_cause(rt: HostRuntime) -> Result<(), Fail> {
    for row in projects().lines() {
        assert!(rt; check_row(rt.alloc(), row)?, "{row}");
    }
    Ok(())
}
