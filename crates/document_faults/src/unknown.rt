// The fields of a document that its format doesn't know.
use crate::format::{CUSTOM, FILE, Format, MAPPING, REQUEST};
use crate::nearest::nearest;
use crate::placed::{Placed, is_one_of, shown_text};
use std::alloc::AllocError;

// The most fields that are told.
const MOST: usize = 8;

// The lines of fields that aren't known.
#[derive(Drop)]
pub(crate) struct Unknown<'s> {
    pub(crate) lines: String,
    told: usize,
    // The place of a field that is told already.
    slip: Option<&'s str>,
}

impl<'s> Unknown<'s> {
    // The lines of a document's fields.
    pub(crate) fn of(
        document: &Placed<'_>,
        format: Format,
        slip: Option<&'s str>,
    ) -> Result<Unknown<'s>, AllocError> {
        let mut unknown = Unknown {
            lines: String::new(document.alloc),
            told: 0,
            slip,
        };
        unknown.look(document, format.fields())?;
        if let Some(ts) = document.member("ts")? {
            unknown.look(&ts, &MAPPING)?;
        }
        unknown.look_at_files(document)?;
        match format {
            Format::Requests => unknown.look_at_requests(document)?,
            Format::Session | Format::Graph => unknown.look_at_steps(document, format)?,
            Format::Audit | Format::Replay => {}
        }
        Ok(unknown)
    }

    // Tells the members of an object that it shouldn't have.
    fn look(&mut self, object: &Placed<'_>, known: &[&str]) -> Result<(), AllocError> {
        let Some(members) = object.value.as_object() else {
            return Ok(());
        };
        for (key, _member) in members.iter() {
            if !is_one_of(key.as_str(), known) {
                self.tell(object, key.as_str(), known)?;
            }
        }
        Ok(())
    }

    // Tells one member, unless it is told already, or enough are.
    fn tell(&mut self, object: &Placed<'_>, key: &str, known: &[&str]) -> Result<(), AllocError> {
        if self.told >= MOST || self.slip == Some(object.place_of(key)?.as_str()) {
            return Ok(());
        }
        self.told += 1;
        let alloc = object.alloc;
        let place = object.name();
        let shown = shown_text(alloc, key)?;
        let line = match nearest(alloc, key, known)? {
            Some(name) => {
                format!(in alloc; "{place}: the field {shown} isn't known; is \"{name}\" meant?\n")?
            }
            None => format!(in alloc; "{place}: the field {shown} isn't known\n")?,
        };
        self.lines.push_str(line.as_str())
    }

    fn look_at_files(&mut self, document: &Placed<'_>) -> Result<(), AllocError> {
        let Some(files) = document.member("files")? else {
            return Ok(());
        };
        for (at, file) in items_of(&files).iter().enumerate() {
            self.look(&files.item(at, file)?, &FILE)?;
        }
        Ok(())
    }

    fn look_at_requests(&mut self, document: &Placed<'_>) -> Result<(), AllocError> {
        let Some(requests) = document.member("requests")? else {
            return Ok(());
        };
        for (at, request) in items_of(&requests).iter().enumerate() {
            self.look_at_request(&requests.item(at, request)?)?;
        }
        Ok(())
    }

    fn look_at_request(&mut self, request: &Placed<'_>) -> Result<(), AllocError> {
        self.look(request, &REQUEST)?;
        match request.member("from")? {
            Some(from) => self.look(&from, &CUSTOM),
            None => Ok(()),
        }
    }

    fn look_at_steps(&mut self, document: &Placed<'_>, format: Format) -> Result<(), AllocError> {
        let Some(steps) = document.member("steps")? else {
            return Ok(());
        };
        for (at, step) in items_of(&steps).iter().enumerate() {
            self.look_at_step(&steps.item(at, step)?, format.step_fields())?;
        }
        Ok(())
    }

    fn look_at_step(&mut self, step: &Placed<'_>, known: &[&str]) -> Result<(), AllocError> {
        self.look(step, known)?;
        if let Some(request) = step.member("ask")? {
            self.look_at_request(&request)?;
        }
        match step.member("put")? {
            Some(file) => self.look(&file, &FILE),
            None => Ok(()),
        }
    }
}

// The items of a list, and none of anything else.
fn items_of<'v>(list: &Placed<'v>) -> &'v [serde_json::Value] {
    match list.value.as_array() {
        Some(items) => items.as_slice(),
        None => &[],
    }
}
