// An importer that is a path.
use sugar_path::CleanPath;

/// An importer that is a path, read once: its text, and the path that the text means from the working folder.
#[derive(Clone, Copy)]
pub struct Importer<'i> {
    pub text: &'i str,
    pub path: &'i CleanPath,
}
