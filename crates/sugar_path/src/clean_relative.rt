// The relative path from one clean path to another.
ghost use Rattle.std.specs.Prelude.{◌≡◌, IfOk};
ghost use Rattle.sugar_path.specs.Path.{text_of};
ghost use Rattle.sugar_path.specs.Relative.{relative_from};

use crate::clean_path::CleanPath;
use crate::plain::Text;
use std::alloc::{AllocError, Global};

impl CleanPath {
    /// The relative path from a base to this path. Where both are one path, it is empty.
    pub fn relative_to(&self, alloc: Global, base: &CleanPath) -> Result<Text, AllocError>
        ensures { IfOk result (λ t.
            t ≡ relative_from (text_of base.now) (text_of base.now) (text_of self.now)) }
    {
        let room = base.as_str().len().saturating_add(self.as_str().len());
        let mut text = String::with_capacity(alloc, room)?;
        let mut above = base.try_clone(alloc)?;
        'up: while !self.is_below(&above) {
            text.push_str("/..")?;
            let _below = above.go_up();
        }
        text.push_str(self.steps_below(&above))?;
        match text.as_str().strip_prefix('/') {
            None => Text::of(alloc, ""),
            Some(path) => Text::of(alloc, path),
        }
    }
}
