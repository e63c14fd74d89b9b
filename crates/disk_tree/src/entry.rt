// What stands at a path of the disk, by what the system says of it.
ghost use Rattle.std.specs.Prelude.{◌≡◌};
ghost use Rattle.disk_tree.specs.Entry.{failed, kind_of};

use std::fs::Metadata;
use std::io::ErrorKind;
use tree_core::ReadError;

// What stands at a path. Where a path goes through a link, it is what the link leads to.
#[derive(Clone, Copy, PartialEq, Eq)]
pub(crate) enum Entry {
    Absent,
    File,
    Folder,
    // a socket or a device, say
    Other,
}

// What an error of the system says of a path. That nothing is there, and that a name on the way is no folder, mean that
// the path is absent; every other error is a fault, but for want of memory.
pub(crate) fn failed(kind: ErrorKind) -> Result<Entry, ReadError>
    ensures { result ≡ failed kind }
{
    match kind {
        ErrorKind::NotFound => Ok(Entry::Absent),
        ErrorKind::NotADirectory => Ok(Entry::Absent),
        ErrorKind::OutOfMemory => Err(ReadError::NoMemory),
        _ => Err(ReadError::Fault),
    }
}

// What stands where the system has this to say.
pub(crate) fn kind_of(metadata: &Metadata) -> Entry
    ensures { result ≡ kind_of metadata.now }
{
    let file_type = metadata.file_type();
    if file_type.is_file() {
        return Entry::File;
    }
    if file_type.is_dir() {
        return Entry::Folder;
    }
    Entry::Other
}
