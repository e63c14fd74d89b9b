// A resolver of a project that keeps what it has read.
ghost use Rattle.std.specs.Prelude.{◌≡◌};
ghost use Rattle.resolve_stack.specs.Decides.{Decides};
ghost use Rattle.resolve_stack.specs.Request.{asked_for};

use crate::{FileName, ImportError, KeptReadings, Outcome, Project, resolve_import_with};
use std::alloc::Global;
use std::marker::Model;
use tree_core::Tree;

/// A resolver of a project's requests. It keeps what its requests have read, so that a further one over the same
/// manifest doesn't read it again; each answer and trail is that of a resolver that keeps nothing.
#[derive(Drop)]
pub struct Resolver<'p, 'l> {
    project: &'p Project<'l>,
    kept: KeptReadings,
}

impl<'p, 'l> Model for Resolver<'p, 'l> {
    ghost use Rattle.resolve_stack.specs.Settings.{ProjectSettings};

    ghost Value = { ProjectSettings };

    ghost view = { λ r. r.project.now };
}

impl<'p, 'l> Resolver<'p, 'l> {
    /// A resolver of this project. It takes no memory.
    pub fn new(alloc: Global, project: &'p Project<'l>) -> Resolver<'p, 'l>
        ensures { result ≡ project.now }
    {
        Resolver::keeping(project, KeptReadings::new(alloc))
    }

    /// A resolver of this project over what earlier requests have read, which also says how much is kept.
    pub fn keeping(project: &'p Project<'l>, kept: KeptReadings) -> Resolver<'p, 'l>
        ensures { result ≡ project.now }
    {
        Resolver { project, kept }
    }

    /// Which file a specifier means, asked from an importer of the project: the verdict of the order of search, with
    /// the trail that decides it. After any call the resolver is fit for the next.
    pub fn resolve_import<T: Tree>(
        &mut self,
        alloc: Global,
        tree: &mut T,
        importer: &FileName,
        specifier: &str,
    ) -> Result<Outcome, ImportError>
        ensures decides { Decides self.old (asked_for importer.now specifier.now)
            (T.state tree.old) (T.state tree.new) result }
        ensures same { self.new ≡ self.old }
    {
        resolve_import_with(
            alloc,
            tree,
            self.project,
            &mut self.kept,
            importer,
            specifier,
        )
    }
}
