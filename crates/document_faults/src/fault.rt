// What is wrong with a document.
use std::alloc::AllocError;

// The first fault of a document, or that no memory was found to tell it.
#[derive(Drop)]
pub(crate) enum Fault {
    Told(Told),
    NoMemory,
}

// What people are told of a fault.
#[derive(Drop)]
pub(crate) struct Told {
    // In one line, without its end.
    pub(crate) line: String,
    // The place of the field that was taken for a slip of a missing one, which the line names.
    pub(crate) slip: Option<String>,
}

impl Fault {
    pub(crate) fn told(line: String) -> Fault {
        Fault::Told(Told { line, slip: None })
    }
}

impl From<AllocError> for Fault {
    fn from(_: AllocError) -> Self {
        Fault::NoMemory
    }
}
