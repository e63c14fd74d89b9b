// The requests that a session keeps.
ghost use Rattle.std.specs.Prelude.{◌≡◌, length, slice_get, map, option_map};

use crate::latest::Latest;
use resolve_stack::FileName;

/// The importers and specifiers of what a session keeps, the most recently used first.
#[derive(Clone, Copy)]
pub struct Keys<'s> {
    pub(crate) latest: &'s Latest,
}

impl Keys<'_> {
    ghost use Rattle.session_core.specs.SessionView.{keys_in};

    /// How many there are.
    pub fn len(&self) -> usize
        ensures { result ≡ length (keys_in self.now) }
    {
        self.latest.len()
    }

    /// The key at a place.
    pub fn get(&self, i: usize) -> Option<(&FileName, &str)>
        ensures { option_map (λ key. (key.0.now, key.1.now)) result ≡ slice_get (keys_in self.now) i }
    {
        match self.latest.get(i) {
            None => None,
            Some(entry) => Some((&entry.importer, entry.specifier.as_str())),
        }
    }
}
