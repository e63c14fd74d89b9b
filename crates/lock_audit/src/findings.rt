// The bindings that are refused.
ghost use Rattle.std.specs.Prelude.{◌≡◌, ◌++◌, ◌∷◌, [], IfOk, OnOk};
ghost use Rattle.tree_core.specs.Asks.{Asks};
ghost use Rattle.lock_audit.specs.Audit.{fault_at, findings, with_fault};
ghost use Rattle.lock_audit.specs.Edges.{finding};

use crate::Finding;
use crate::edges::RowEdge;
use lock_checks::{Edge, EdgeFault, Lock, check_binding};
use package_readings::PackageReadings;
use pnp_core::Manifest;
use std::alloc::{AllocError, Global};
use sugar_path::List;
use tree_core::{Asker, ReadError};

// The edges of a manifest that are refused, in their order. What package.jsons are read to is kept from one edge to the
// next.
pub(crate) fn findings_of<R: Asker>(
    alloc: Global,
    tree: &mut R,
    lock: &Lock<'_>,
    manifest: &Manifest,
    edges: &[RowEdge],
) -> Result<List<Finding>, ReadError>
    ensures { Asks (R.asking tree.old) (R.asking tree.new) result
        (findings lock.now manifest.now edges.now) }
{
    let mut packages = PackageReadings::new(alloc);
    let mut findings = Vec::new(alloc);
    for edge in edges {
        let fault = fault_at(alloc, tree, &mut packages, lock, manifest, edge)?;
        put_fault(alloc, &mut findings, edge, fault)?;
    }
    Ok(List::from(findings))
}

// Why an edge is refused, if it is.
fn fault_at<R: Asker>(
    alloc: Global,
    tree: &mut R,
    packages: &mut PackageReadings,
    lock: &Lock<'_>,
    manifest: &Manifest,
    edge: &RowEdge,
) -> Result<Option<EdgeFault>, ReadError>
    ensures { Asks (R.asking tree.old) (R.asking tree.new) result
        (fault_at lock.now manifest.now edge.now) }
{
    let edge = Edge {
        manifest,
        owner: &edge.owner,
        name: edge.name.as_str(),
        bound: &edge.bound,
    };
    check_binding(alloc, tree, packages, Some(lock), &edge)
}

// Puts an edge at the end, if it is refused.
fn put_fault(
    alloc: Global,
    findings: &mut Vec<Finding>,
    edge: &RowEdge,
    fault: Option<EdgeFault>,
) -> Result<(), AllocError>
    ensures { OnOk result (findings.new.items
        ≡ findings.old.items ++ with_fault edge.now fault []) }
{
    match fault {
        Some(fault) => put_finding(alloc, findings, edge, fault),
        None => Ok(()),
    }
}

// Puts an edge that is refused at the end.
fn put_finding(
    alloc: Global,
    findings: &mut Vec<Finding>,
    edge: &RowEdge,
    fault: EdgeFault,
) -> Result<(), AllocError>
    ensures { OnOk result (findings.new.items ≡ findings.old.items ++ finding edge.now fault ∷ []) }
{
    findings.push(Finding {
        owner: edge.owner.try_clone(alloc)?,
        name: edge.name.try_clone(alloc)?,
        bound: edge.bound.try_clone(alloc)?,
        fault,
    })?;
    Ok(())
}
