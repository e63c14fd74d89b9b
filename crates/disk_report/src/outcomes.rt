// The outcomes of requests over a tree, told one by one or as a bundle.
ghost use Rattle.std.specs.Prelude.{◌≡◌, [], IfErr, IfOk, flat_map, map, string_bytes};
ghost use Rattle.tree_core.specs.Tree.{HasCause};
ghost use Rattle.trail_bundle.specs.BundleView.{bundle_of};
ghost use Rattle.disk_report.specs.Errors.{as_read};
ghost use Rattle.disk_report.specs.Forms.{told_as};
ghost use Rattle.disk_report.specs.Outcomes.{AreAnswered, IsBundleBy, IsOfBundle, IsOfTree};

use crate::error::DiskError;
use crate::forms::{OutcomeForm, told_as};
use resolve_stack::{FileName, Project, resolve_import};
use std::alloc::Global;
use trail_bundle::Bundle;
use tree_core::Tree;

// What is told of the outcomes of specifiers, in order.
pub(crate) fn lines_on_tree<T: Tree>(
    alloc: Global,
    tree: &mut T,
    project: &Project<'_>,
    importer: &FileName,
    specifiers: &[String],
    form: OutcomeForm,
) -> Result<String, DiskError>
    ensures told { IfOk result (λ lines. AreAnswered (T.state tree.old).stands_for project.now
        importer.now (map string_bytes specifiers.now) [] (λ answered. string_bytes lines
        ≡ flat_map (λ a. told_as form importer.now a.specifier a.outcome) answered)) }
    ensures failed { IfErr result IsOfTree }
    ensures stands { (T.state tree.new).stands_for ≡ (T.state tree.old).stands_for }
    ensures cause { HasCause (T.state tree.old).faults (T.state tree.new).faults (as_read result) }
{
    let mut lines = String::new(alloc);
    for specifier in specifiers {
        let wanted = specifier.as_str();
        let outcome = resolve_import(alloc, tree, project, importer, wanted)?;
        let told = told_as(alloc, form, importer, wanted, &outcome)?;
        lines.push_str(told.as_str())?;
    }
    Ok(lines)
}

// The bundle of the outcomes of specifiers. A tree that gives two replies to one question has none.
pub(crate) fn bundle_on_tree<T: Tree>(
    alloc: Global,
    tree: &mut T,
    project: &Project<'_>,
    importer: &FileName,
    specifiers: &[String],
) -> Result<Bundle, DiskError>
    ensures told { IfOk result (λ bundle. AreAnswered (T.state tree.old).stands_for project.now
        importer.now (map string_bytes specifiers.now) []
        (IsBundleBy (bundle_of bundle) importer.now)) }
    ensures failed { IfErr result (IsOfBundle (T.state tree.old).stands_for project.now
        importer.now (map string_bytes specifiers.now)) }
    ensures stands { (T.state tree.new).stands_for ≡ (T.state tree.old).stands_for }
    ensures cause { HasCause (T.state tree.old).faults (T.state tree.new).faults (as_read result) }
{
    let mut bundle = Bundle::new(alloc);
    for specifier in specifiers {
        let wanted = specifier.as_str();
        let outcome = resolve_import(alloc, tree, project, importer, wanted)?;
        bundle.add(importer, wanted, &outcome.trail)?;
    }
    Ok(bundle)
}
