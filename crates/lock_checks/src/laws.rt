// Laws, each proved for all locks, manifests and trees. The calls have them by their contracts.
ghost use Rattle.lock_checks.specs.Locked.{PassesAsLocked};
ghost use Rattle.lock_checks.specs.OnTree.{FaultOnTree, LocationOnTree};

/// The checks of a binding, said as a function of the tree, with their questions.
pub fn location_on_tree()
    ensures { LocationOnTree }
{}

/// Why a binding is refused, said as a function of the tree, with its questions.
pub fn fault_on_tree()
    ensures { FaultOnTree }
{}

/// A binding that passes the checks is locked: an entry names its package, and the version of the first such entry is
/// within the range that the asking package declares.
pub fn passes_as_locked()
    ensures { PassesAsLocked }
{}
