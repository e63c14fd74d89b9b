// The first fault of a document's value.
use crate::fault::Fault;
use crate::format::Format;
use crate::given::{check_files, check_requests, check_steps};
use crate::placed::Placed;
use crate::project::check_project;
use crate::settings::{check_settings, check_texts};
use crate::tree::check_tree;
use sugar_path::is_clean;

// The largest capacity of a session.
const LARGEST: u64 = 65_536;

// What is against a document, in the order in which causes count.
pub(crate) fn check(document: &Placed<'_>, format: Format) -> Result<(), Fault> {
    check_settings(document, format)?;
    if format.has_files() {
        check_files(&document.required("files", format.fields())?)?;
    }
    check_own_fields(document, format)?;
    if format.has_files() {
        check_tree(document)?;
    }
    check_project(document)?;
    check_audited(document, format)
}

// The fields behind those of a project.
fn check_own_fields(document: &Placed<'_>, format: Format) -> Result<(), Fault> {
    let fields = format.fields();
    match format {
        Format::Requests => check_requests(&document.required("requests", fields)?),
        Format::Session => {
            check_capacity(&document.required("capacity", fields)?)?;
            check_steps(&document.required("steps", fields)?, format)
        }
        Format::Graph => {
            check_entries(&document.required("entries", fields)?)?;
            check_capacity(&document.required("capacity", fields)?)?;
            check_steps(&document.required("steps", fields)?, format)?;
            check_scanner(document)
        }
        Format::Audit => check_file_path(&document.required("manifest", fields)?),
        Format::Replay => {
            let _bundle = document.required("bundle", fields)?.text()?;
            Ok(())
        }
    }
}

fn check_capacity(capacity: &Placed<'_>) -> Result<(), Fault> {
    match capacity.value.as_u64() {
        Some(count) if 0 < count && count <= LARGEST => Ok(()),
        _ => Err(capacity.other_than("a number from 1 to 65,536")),
    }
}

fn check_entries(entries: &Placed<'_>) -> Result<(), Fault> {
    let wanted = "a list of clean absolute paths";
    check_texts(entries, wanted)?;
    for (at, entry) in entries.list(wanted)?.iter().enumerate() {
        check_file_path(&entries.item(at, entry)?)?;
    }
    Ok(())
}

fn check_file_path(path: &Placed<'_>) -> Result<(), Fault> {
    match path.value.as_str() {
        Some(text) if text != "/" && is_clean(text) => Ok(()),
        _ => Err(path.other_than("a clean absolute path other than \"/\"")),
    }
}

fn check_scanner(document: &Placed<'_>) -> Result<(), Fault> {
    let Some(scanner) = document.member("scanner")? else {
        return Ok(());
    };
    match scanner.value.as_str() {
        Some("lines" | "es") => Ok(()),
        _ => Err(scanner.other_than("\"lines\" or \"es\"")),
    }
}

// An audit needs a lock.
fn check_audited(document: &Placed<'_>, format: Format) -> Result<(), Fault> {
    if format != Format::Audit {
        return Ok(());
    }
    match document.member("lock")? {
        Some(lock) if lock.value.is_string() => Ok(()),
        _ => Err(document.fault("an audit needs the field \"lock\", the text of a lock file")),
    }
}
