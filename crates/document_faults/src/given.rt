// Files, requests and steps.
use crate::fault::Fault;
use crate::format::{CUSTOM, FILE, Format, REQUEST};
use crate::placed::{Placed, is_one_of};
use serde_json::Value;

pub(crate) fn check_files(files: &Placed<'_>) -> Result<(), Fault> {
    for (at, file) in files.list("a list of files")?.iter().enumerate() {
        check_file(&files.item(at, file)?)?;
    }
    Ok(())
}

pub(crate) fn check_requests(requests: &Placed<'_>) -> Result<(), Fault> {
    for (at, request) in requests.list("a list of requests")?.iter().enumerate() {
        check_request(&requests.item(at, request)?)?;
    }
    Ok(())
}

fn check_file(file: &Placed<'_>) -> Result<(), Fault> {
    let _path = file.required("path", &FILE)?.text()?;
    match (file.member("text")?, file.member("hex")?) {
        (Some(text), None) => {
            let _content = text.text()?;
        }
        (None, Some(hex)) => check_hex(&hex)?,
        (Some(_), Some(_)) => {
            return Err(file.fault("one of the fields \"text\" and \"hex\", not both"));
        }
        (None, None) => {
            let _text = file.required("text", &FILE)?;
        }
    }
    match file.member("canonical")? {
        Some(canonical) => {
            let _name = canonical.text()?;
            Ok(())
        }
        None => Ok(()),
    }
}

fn check_hex(hex: &Placed<'_>) -> Result<(), Fault> {
    match hex.value.as_str() {
        Some(digits) if is_hex(digits.as_bytes()) => Ok(()),
        _ => Err(hex.other_than("digits of hex in lower case, two for each byte")),
    }
}

fn is_hex(digits: &[u8]) -> bool {
    digits.len() % 2 == 0
        && digits
            .iter()
            .all(|c| matches!(*c, b'0'..=b'9' | b'a'..=b'f'))
}

fn check_request(request: &Placed<'_>) -> Result<(), Fault> {
    check_importer(&request.required("from", &REQUEST)?)?;
    let _specifier = request.required("specifier", &REQUEST)?.text()?;
    Ok(())
}

fn check_importer(from: &Placed<'_>) -> Result<(), Fault> {
    match from.value {
        Value::Null => Ok(()),
        Value::String(_) => Ok(()),
        Value::Object(_) => {
            let _name = from.required("custom", &CUSTOM)?.text()?;
            Ok(())
        }
        _ => Err(from.other_than("a path's text, {\"custom\": text}, or null")),
    }
}

pub(crate) fn check_steps(steps: &Placed<'_>, format: Format) -> Result<(), Fault> {
    for (at, step) in steps.list("a list of steps")?.iter().enumerate() {
        check_step(&steps.item(at, step)?, format)?;
    }
    Ok(())
}

fn check_step(step: &Placed<'_>, format: Format) -> Result<(), Fault> {
    let Some(members) = step.value.as_object() else {
        return Err(step.other_than("an object"));
    };
    let known = format.step_fields();
    let mut kind = None;
    for (key, _member) in members.iter() {
        if is_one_of(key.as_str(), known) {
            if kind.is_some() {
                return Err(no_one_step(step, known));
            }
            kind = Some(key.as_str());
        }
    }
    match kind {
        Some(kind) => check_step_of(&step.required(kind, known)?, kind),
        None => Err(no_one_step(step, known)),
    }
}

// A step has one field.
fn no_one_step(step: &Placed<'_>, known: &[&str]) -> Fault {
    match known {
        [first, second, third] => {
            match format!(in step.alloc;
                "exactly one of the fields \"{first}\", \"{second}\", \"{third}\""
            ) {
                Ok(what) => step.fault(what.as_str()),
                Err(_) => Fault::NoMemory,
            }
        }
        _ => step.fault("exactly one field"),
    }
}

fn check_step_of(given: &Placed<'_>, kind: &str) -> Result<(), Fault> {
    match kind {
        "ask" => check_request(given),
        "put" => check_file(given),
        "graph" if given.value.is_null() => Ok(()),
        "graph" => Err(given.other_than("null")),
        _ => {
            let _path = given.text()?;
            Ok(())
        }
    }
}
