// The search for Node's modules as a resolver.
ghost use Rattle.std.specs.Prelude.{◌≡◌};
ghost use Rattle.tree_core.specs.Resolving.{Resolves};
ghost use Rattle.tree_core.specs.RecorderView.{asking_of};
ghost use Rattle.swc_loader.specs.Settings.{NodeSettings};
ghost use Rattle.swc_loader.specs.NodeOrder.{node};
ghost use Rattle.resolver_core.specs.Resolving.{IsRefused};

use crate::Resolve;
use std::alloc::Global;
use swc_loader::{FileName, NodeModulesResolver, NodeRefusal, Resolution};
use tree_core::{Recorder, ResolveError, Tree};

impl Resolve for NodeModulesResolver {
    type Refusal = NodeRefusal;

    ghost View = { NodeSettings };

    ghost view = { λ r. r };

    ghost order = { node };

    /// The order of search for Node's modules. Every call leaves the resolver as it was.
    fn resolve<T: Tree>(
        &mut self,
        alloc: Global,
        tree: &mut Recorder<'_, T>,
        base: &FileName,
        specifier: &str,
    ) -> Result<Resolution, ResolveError<NodeRefusal>>
        ensures resolves { Resolves (asking_of tree.old) (asking_of tree.new) result
            (node self.old base.now specifier.now) }
        ensures refused { IsRefused result → self.new ≡ self.old }
        ensures same { self.new ≡ self.old }
    {
        self.node_order(alloc, tree, base, specifier)
    }
}
