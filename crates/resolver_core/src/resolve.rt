// What resolves specifiers over a tree.
ghost use Rattle.std.specs.Prelude.{◌≡◌, ℕ, List, Result};
ghost use Rattle.tree_core.specs.Plan.{Plan};
ghost use Rattle.tree_core.specs.Resolving.{Resolves};
ghost use Rattle.tree_core.specs.RecorderView.{asking_of};
ghost use Rattle.swc_loader.specs.declared.resolution.FileName.{FileName as BaseName};
ghost use Rattle.swc_loader.specs.declared.resolution.Resolution.{Resolution as Found};
ghost use Rattle.resolver_core.specs.Resolving.{IsRefused};

use std::alloc::Global;
use swc_loader::{FileName, Resolution};
use tree_core::{Recorder, ResolveError, Tree};

/// A resolver over any tree. It has an order of search, a plan of questions, which hangs on what contracts see of it
/// alone.
pub trait Resolve {
    /// Why its order of search ends without an answer.
    type Refusal;

    /// What its order hangs on, beside the request.
    ghost View: { Type 0 };

    ghost view: { Self → View };

    /// What a request comes to, from a base, by a specifier.
    ghost order: { View → BaseName → List ℕ → Plan (Result Found Self.Refusal) };

    /// What a specifier means, asked from a base.
    fn resolve<T: Tree>(
        &mut self,
        alloc: Global,
        tree: &mut Recorder<'_, T>,
        base: &FileName,
        specifier: &str,
    ) -> Result<Resolution, ResolveError<Self::Refusal>>
        ensures resolves { Resolves (asking_of tree.old) (asking_of tree.new) result
            (order (view self.old) base.now specifier.now) }
        // A refusal leaves it as it was.
        ensures refused { IsRefused result → view self.new ≡ view self.old };
}
