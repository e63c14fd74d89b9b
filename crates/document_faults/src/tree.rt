// Whether a document's files make a tree.
use crate::fault::Fault;
use crate::format::FILE;
use crate::placed::{Placed, shown_text};
use sugar_path::is_clean;
use tree_core::{MemoryTree, PutError};

// What is against the first file that the tree refuses.
pub(crate) fn check_tree(document: &Placed<'_>) -> Result<(), Fault> {
    let Some(files) = document.member("files")? else {
        return Ok(());
    };
    let mut tree = MemoryTree::new(files.alloc);
    for (at, file) in files.list("a list of files")?.iter().enumerate() {
        put(&mut tree, &files.item(at, file)?)?;
    }
    Ok(())
}

// Puts one file, without its bytes.
fn put(tree: &mut MemoryTree, file: &Placed<'_>) -> Result<(), Fault> {
    let path = file.required("path", &FILE)?;
    let canonical = match file.member("canonical")? {
        Some(canonical) => canonical,
        None => file.required("path", &FILE)?,
    };
    match tree.put(path.text()?, b"", canonical.text()?) {
        Ok(()) => Ok(()),
        Err(PutError::Unclean) if is_file_path(path.text()?) => Err(unclean(&canonical)),
        Err(PutError::Unclean) => Err(unclean(&path)),
        Err(PutError::Conflict { other }) => Err(conflict(&path, other.as_str())),
        Err(PutError::NoMemory) => Err(Fault::NoMemory),
    }
}

fn is_file_path(text: &str) -> bool {
    text != "/" && is_clean(text)
}

fn unclean(path: &Placed<'_>) -> Fault {
    path.other_than("a clean absolute path other than \"/\"")
}

// Another file stands above or below the path.
fn conflict(path: &Placed<'_>, other: &str) -> Fault {
    let Ok(other) = shown_text(path.alloc, other) else {
        return Fault::NoMemory;
    };
    match format!(in path.alloc; "a path neither above nor below that of another file, {other}") {
        Ok(wanted) => path.other_than(wanted.as_str()),
        Err(_) => Fault::NoMemory,
    }
}
