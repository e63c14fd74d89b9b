// A resolver through a reference or a box: that resolver's own order.
use crate::Resolve;
use std::alloc::Global;
use swc_loader::{FileName, Resolution};
use tree_core::{Recorder, ResolveError, Tree};

impl<R: Resolve> Resolve for &mut R {
    type Refusal = R::Refusal;

    ghost View = { R.View };

    ghost view = { λ r. R.view r.now };

    ghost order = { R.order };

    fn resolve<T: Tree>(
        &mut self,
        alloc: Global,
        tree: &mut Recorder<'_, T>,
        base: &FileName,
        specifier: &str,
    ) -> Result<Resolution, ResolveError<R::Refusal>> {
        (**self).resolve(alloc, tree, base, specifier)
    }
}

impl<R: Resolve> Resolve for Box<R> {
    type Refusal = R::Refusal;

    ghost View = { R.View };

    ghost view = { λ r. R.view r.value };

    ghost order = { R.order };

    fn resolve<T: Tree>(
        &mut self,
        alloc: Global,
        tree: &mut Recorder<'_, T>,
        base: &FileName,
        specifier: &str,
    ) -> Result<Resolution, ResolveError<R::Refusal>> {
        (**self).resolve(alloc, tree, base, specifier)
    }
}
