// A value of a document with its place, and what is told where another should stand there.
use crate::fault::{Fault, Told};
use crate::nearest::slips;
use serde_json::Value;
use std::alloc::{AllocError, Global};

// The most bytes of a text that are shown.
const SHOWN: usize = 80;

// A value of a document, and the place where it stands: "" is the document's, and others are as `files[2].path`.
#[derive(Drop)]
pub(crate) struct Placed<'v> {
    pub(crate) alloc: Global,
    pub(crate) place: String,
    pub(crate) value: &'v Value,
}

impl<'v> Placed<'v> {
    pub(crate) fn document(alloc: Global, value: &'v Value) -> Placed<'v> {
        Placed {
            alloc,
            place: String::new(alloc),
            value,
        }
    }

    // The place, as people are told it.
    pub(crate) fn name(&self) -> &str {
        if self.place.is_empty() {
            "the document"
        } else {
            self.place.as_str()
        }
    }

    // A member that may be missing; a value that is no object has none.
    pub(crate) fn member(&self, name: &str) -> Result<Option<Placed<'v>>, AllocError> {
        match self.value.get(name) {
            Some(value) => Ok(Some(Placed {
                alloc: self.alloc,
                place: self.place_of(name)?,
                value,
            })),
            None => Ok(None),
        }
    }

    // A member that has to be there, of an object that has these.
    pub(crate) fn required(&self, name: &str, known: &[&str]) -> Result<Placed<'v>, Fault> {
        if !self.value.is_object() {
            return Err(self.other_than("an object"));
        }
        match self.member(name)? {
            Some(member) => Ok(member),
            None => Err(self.missing(name, known)),
        }
    }

    // The place of a member.
    pub(crate) fn place_of(&self, name: &str) -> Result<String, AllocError> {
        if self.place.is_empty() {
            return String::from_str(self.alloc, name);
        }
        format!(in self.alloc; "{}.{name}", self.place)
    }

    // An item of a list.
    pub(crate) fn item(&self, at: usize, value: &'v Value) -> Result<Placed<'v>, AllocError> {
        Ok(Placed {
            alloc: self.alloc,
            place: format!(in self.alloc; "{}[{at}]", self.place)?,
            value,
        })
    }

    // A member whose name is a text of the document's own.
    pub(crate) fn keyed(&self, key: &str, value: &'v Value) -> Result<Placed<'v>, AllocError> {
        let key = shown_text(self.alloc, key)?;
        Ok(Placed {
            alloc: self.alloc,
            place: format!(in self.alloc; "{}[{key}]", self.place)?,
            value,
        })
    }

    pub(crate) fn text(&self) -> Result<&'v str, Fault> {
        match self.value.as_str() {
            Some(text) => Ok(text),
            None => Err(self.other_than("a text")),
        }
    }

    pub(crate) fn check_flag(&self) -> Result<(), Fault> {
        match self.value.as_bool() {
            Some(_) => Ok(()),
            None => Err(self.other_than("true or false")),
        }
    }

    // The items of a list of what is wanted.
    pub(crate) fn list(&self, wanted: &str) -> Result<&'v [Value], Fault> {
        match self.value.as_array() {
            Some(items) => Ok(items.as_slice()),
            None => Err(self.other_than(wanted)),
        }
    }

    // Another value stands there than is wanted.
    pub(crate) fn other_than(&self, wanted: &str) -> Fault {
        match self.line_of_other(wanted) {
            Ok(line) => Fault::told(line),
            Err(_) => Fault::NoMemory,
        }
    }

    fn line_of_other(&self, wanted: &str) -> Result<String, AllocError> {
        let there = shown(self.alloc, self.value)?;
        format!(in self.alloc; "{}: {wanted}, not {there}", self.name())
    }

    // A fault of the value as a whole.
    pub(crate) fn fault(&self, what: &str) -> Fault {
        match format!(in self.alloc; "{}: {what}", self.name()) {
            Ok(line) => Fault::told(line),
            Err(_) => Fault::NoMemory,
        }
    }

    // A member is missing; one that isn't known may be a slip of it.
    fn missing(&self, name: &str, known: &[&str]) -> Fault {
        match self.told_of_missing(name, known) {
            Ok(told) => Fault::Told(told),
            Err(_) => Fault::NoMemory,
        }
    }

    fn told_of_missing(&self, name: &str, known: &[&str]) -> Result<Told, AllocError> {
        let place = self.name();
        match self.slip_of(name, known)? {
            Some(slip) => Ok(Told {
                line: format!(in self.alloc;
                    "{place}: no field \"{name}\" (\"{slip}\" is there: a slip?)"
                )?,
                slip: Some(self.place_of(slip)?),
            }),
            None => Ok(Told {
                line: format!(in self.alloc; "{place}: no field \"{name}\"")?,
                slip: None,
            }),
        }
    }

    // The first unknown member whose name may be a slip of this one.
    fn slip_of(&self, name: &str, known: &[&str]) -> Result<Option<&'v str>, AllocError> {
        let Some(members) = self.value.as_object() else {
            return Ok(None);
        };
        for (key, _member) in members.iter() {
            if !is_one_of(key.as_str(), known) && slips(self.alloc, key.as_str(), name)?.is_some() {
                return Ok(Some(key.as_str()));
            }
        }
        Ok(None)
    }
}

// Whether a name is one of these.
pub(crate) fn is_one_of(name: &str, names: &[&str]) -> bool {
    names.iter().any(|known| *known == name)
}

// A value in a few words.
fn shown(alloc: Global, value: &Value) -> Result<String, AllocError> {
    match value {
        Value::String(text) => shown_text(alloc, text.as_str()),
        Value::Array(_) => String::from_str(alloc, "a list"),
        Value::Object(_) => String::from_str(alloc, "an object"),
        Value::Null | Value::Bool(_) | Value::Number(_) => value.to_string(alloc),
    }
}

// A text in a few words: as JSON, which has no control characters, or how long it is.
pub(crate) fn shown_text(alloc: Global, text: &str) -> Result<String, AllocError> {
    if text.len() > SHOWN {
        return format!(in alloc; "a text of {} bytes", text.len());
    }
    Value::try_from_str(alloc, text)?.to_string(alloc)
}
