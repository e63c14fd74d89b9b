// The folder that a path names its last component in.
ghost use Rattle.std.specs.Prelude.{◌≡◌, option_map};
ghost use Rattle.sugar_path.specs.PathTypes.{path_bytes};
ghost use Rattle.sugar_path.specs.Path.{parts};
ghost use Rattle.sugar_path.specs.Parent.{is_silent, or_slash, parent_of};
ghost use Rattle.sugar_path.specs.ParentEnd.{until_last};

use crate::part::{Lead, lead_of};
use crate::path::Path;
use memchr::memrchr;

/// The path without its last component, as `std::path` has it: the root and the empty path have none.
pub fn parent(path: Path<'_>) -> Option<Path<'_>>
    ensures { option_map path_bytes result ≡ parent_of (path_bytes path.entry) }
{
    let text = until_last(path.bytes());
    match memrchr(b'/', text) {
        Some(slash) => Some(Path::of_bytes(or_root(until_last(&text[..slash])))),
        None if text.is_empty() => None,
        None => Some(Path::of_bytes(b"")),
    }
}

// The path as far as its last component: what follows it says nothing.
fn until_last(path: &[u8]) -> &[u8]
    ensures { result.now ≡ until_last (parts path.now) }
{
    let mut text = path;
    while let Some(slash) = memrchr(b'/', text) {
        if !is_silent(&text[slash + 1..]) {
            return text;
        }
        text = &text[..slash];
    }
    text
}

// The root, where nothing stands in front of a slash.
fn or_root(path: &[u8]) -> &[u8]
    ensures { result.now ≡ or_slash path.now }
{
    if path.is_empty() { b"/" } else { path }
}

// Whether a part behind the first one is no component.
fn is_silent(part: &[u8]) -> bool
    ensures { result ≡ is_silent part.now }
{
    matches!(lead_of(part), Lead::Nowhere)
}
