// Laws, each proved for all locks, manifests and trees. The call has them by its contract.
ghost use Rattle.lock_audit.specs.Laws.{EdgesAreBindings, FindingsAreRefusals, PassesWithoutFindings};
ghost use Rattle.lock_audit.specs.OnTree.{AuditOnTree};

/// An audit, said as a function of the tree, with its questions: each binding is asked once, in the registry's order.
pub fn audit_on_tree()
    ensures { AuditOnTree }
{}

/// The edges of a manifest are what its rows bind, each once.
pub fn edges_are_bindings()
    ensures { EdgesAreBindings }
{}

/// A binding is found exactly where the registry row or the lock row of the order of search, asked for its owner and
/// its name, refuses, and it is found once.
pub fn findings_are_refusals()
    ensures { FindingsAreRefusals }
{}

/// Where nothing is found, these two rows refuse no name that is bound by its owner's own row.
pub fn passes_without_findings()
    ensures { PassesWithoutFindings }
{}
