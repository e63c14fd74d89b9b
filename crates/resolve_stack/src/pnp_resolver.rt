// The join as a resolver, and where manifests are known.
ghost use Rattle.std.specs.Prelude.{◌≡◌};
ghost use Rattle.tree_core.specs.Resolving.{Resolves};
ghost use Rattle.tree_core.specs.RecorderView.{asking_of};
ghost use Rattle.resolver_core.specs.Resolving.{IsRefused};
ghost use Rattle.resolve_stack.specs.Known.{KnownSettings, join_order_by};
ghost use Rattle.resolve_stack.specs.Order.{join_order};
ghost use Rattle.resolve_stack.specs.ResolverView.{joined_known, joined_project};
ghost use Rattle.resolve_stack.specs.Settings.{ProjectSettings};

use crate::join::join;
use crate::kept::KeptManifest;
use crate::request::Request;
use crate::{JoinRefusal, KeptReadings, Project};
use resolver_core::Resolve;
use std::alloc::Global;
use swc_loader::{FileName, Resolution};
use tree_core::{Recorder, ResolveError, Tree};

/// The join of a project as a resolver, without the project's mapping. It keeps what its requests have read.
#[derive(Drop)]
pub struct PnpResolver<'p, 'l> {
    project: &'p Project<'l>,
    kept: KeptReadings,
}

impl<'p, 'l> PnpResolver<'p, 'l> {
    /// The join of this project. It takes no memory.
    pub fn of(alloc: Global, project: &'p Project<'l>) -> PnpResolver<'p, 'l>
        ensures { joined_project result ≡ project.now }
    {
        let kept = KeptReadings::new(alloc);
        PnpResolver { project, kept }
    }
}

impl<'p, 'l> Resolve for PnpResolver<'p, 'l> {
    type Refusal = JoinRefusal;

    ghost View = { ProjectSettings };

    ghost view = { joined_project };

    ghost order = { join_order };

    /// The order of the join. Every call leaves the resolver as it was.
    fn resolve<T: Tree>(
        &mut self,
        alloc: Global,
        tree: &mut Recorder<'_, T>,
        base: &FileName,
        specifier: &str,
    ) -> Result<Resolution, ResolveError<JoinRefusal>>
        ensures resolves { Resolves (asking_of tree.old) (asking_of tree.new) result
            (join_order (joined_project self.old) base.now specifier.now) }
        ensures refused { IsRefused result → joined_project self.new ≡ joined_project self.old }
        ensures same { joined_project self.new ≡ joined_project self.old }
    {
        let nothing = Vec::new(alloc);
        let known = KnownProject {
            project: self.project,
            known: nothing.as_slice(),
        };
        let request = Request {
            importer: base,
            specifier,
        };
        join(alloc, tree, &known, &mut self.kept, &request)
    }
}

// A project, and the manifests that are known beforehand.
#[derive(Clone, Copy)]
pub(crate) struct KnownProject<'k, 'p, 'l> {
    pub project: &'p Project<'l>,
    pub known: &'k [KeptManifest],
}

// The join of a project where manifests are known, with what is kept.
#[derive(Drop)]
pub(crate) struct KnownJoin<'r, 'k, 'p, 'l> {
    known: KnownProject<'k, 'p, 'l>,
    kept: &'r mut KeptReadings,
}

impl<'r, 'k, 'p, 'l> KnownJoin<'r, 'k, 'p, 'l> {
    pub(crate) fn of(
        known: KnownProject<'k, 'p, 'l>,
        kept: &'r mut KeptReadings,
    ) -> KnownJoin<'r, 'k, 'p, 'l>
        ensures project { (joined_known result).project ≡ known.entry.project.now }
        ensures known { (joined_known result).known ≡ known.entry.known.now }
    {
        KnownJoin { known, kept }
    }
}

impl<'r, 'k, 'p, 'l> Resolve for KnownJoin<'r, 'k, 'p, 'l> {
    type Refusal = JoinRefusal;

    ghost View = { KnownSettings };

    ghost view = { joined_known };

    ghost order = { λ v. join_order_by v.known v.project };

    fn resolve<T: Tree>(
        &mut self,
        alloc: Global,
        tree: &mut Recorder<'_, T>,
        base: &FileName,
        specifier: &str,
    ) -> Result<Resolution, ResolveError<JoinRefusal>> {
        let request = Request {
            importer: base,
            specifier,
        };
        join(alloc, tree, &self.known, self.kept, &request)
    }
}
