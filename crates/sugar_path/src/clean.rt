// Clean absolute paths as texts.
ghost use Rattle.std.specs.Prelude.{◌≡◌, ◌↔◌, IfOk, IsTrue};
ghost use Rattle.sugar_path.specs.Path.{IsCleanPath, text_of, path_in, clean};

use crate::clean_path::CleanPath;
use crate::normal::are_steps;
use crate::plain::Text;
use std::alloc::{AllocError, Global};

/// Whether a text is a clean absolute path: `/`, or names that each stand behind a `/`.
pub fn is_clean(text: &str) -> bool
    ensures { IsTrue result ↔ IsCleanPath text.now }
{
    match text.strip_prefix('/') {
        None => false,
        Some(rest) => rest.is_empty() || are_steps(rest.as_bytes(), false),
    }
}

/// A text read from a folder, with `.`, `..` and separators resolved lexically. An absolute text is read from `/`.
#[tactic(auto, unfolding(crate::specs::Path::clean))]
pub fn clean_text(alloc: Global, cwd: &str, text: &str) -> Result<Text, AllocError>
    requires { IsCleanPath cwd.now }
    ensures value { IfOk result (λ t. t ≡ text_of (clean (path_in cwd.now) text.now)) }
    ensures clean { IfOk result IsCleanPath }
{
    if text.starts_with('/') {
        return CleanPath::from_root(alloc, text)?.into_text();
    }
    CleanPath::of(alloc, cwd)?.follow_all(text)?.into_text()
}
