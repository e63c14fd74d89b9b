// What an entry lists below its headings.
ghost use Rattle.std.specs.Prelude.{◌≡◌, [], IsTrue};

use crate::metas::Meta;
use crate::pair::Pair;
use std::alloc::Global;

/// The lists of an entry, each under its heading.
#[derive(Drop)]
pub(crate) struct Lists<'a> {
    pub(crate) dependencies: Vec<Pair<'a>>,
    pub(crate) optional_dependencies: Vec<Pair<'a>>,
    pub(crate) peer_dependencies: Vec<Pair<'a>>,
    pub(crate) dependencies_meta: Vec<Meta<'a>>,
    pub(crate) peer_dependencies_meta: Vec<Meta<'a>>,
}

impl<'a> Lists<'a> {
    ghost use Rattle.yarn_lock_parser.specs.Packed.{is_empty};

    pub(crate) fn new(alloc: Global) -> Self
        ensures { IsTrue (is_empty result) }
    {
        Lists {
            dependencies: Vec::new(alloc),
            optional_dependencies: Vec::new(alloc),
            peer_dependencies: Vec::new(alloc),
            dependencies_meta: Vec::new(alloc),
            peer_dependencies_meta: Vec::new(alloc),
        }
    }

    /// Nothing is listed.
    pub(crate) fn is_empty(&self) -> bool
        ensures { result ≡ is_empty self.now }
    {
        self.dependencies.is_empty()
            && self.optional_dependencies.is_empty()
            && self.peer_dependencies.is_empty()
            && self.dependencies_meta.is_empty()
            && self.peer_dependencies_meta.is_empty()
    }
}
