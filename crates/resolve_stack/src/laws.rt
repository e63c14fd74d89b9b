// What the order comes to on each tree, and which questions it puts. `resolve_import` has it by its contract.
ghost use Rattle.resolve_stack.specs.OnTree.{ExportedOnTree, JoinOnTree, VerdictOnTree};

/// The verdict of a request, said as a function of the tree, with its questions.
pub fn verdict_on_tree()
    ensures { VerdictOnTree }
{}

/// The join, said as a function of the tree, with its questions.
pub fn join_on_tree()
    ensures { JoinOnTree }
{}

/// The file that the exports at a location mean by a subpath, said as a function of the tree, with its questions.
pub fn exported_on_tree()
    ensures { ExportedOnTree }
{}
