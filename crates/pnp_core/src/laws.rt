// Laws, each proved for all texts and trees. The calls have them by their contracts.
ghost use Rattle.pnp_core.specs.Laws.{NormalizesAsNormal};
ghost use Rattle.pnp_core.specs.NamesOnce.{NamesStandOnce};
ghost use Rattle.pnp_core.specs.OnTree.{NearestOnTree, NearestTextOnTree, LoadedOnTree, ToldOnTree};
ghost use Rattle.pnp_core.specs.Ownership.{OwnerOwns};
ghost use Rattle.pnp_core.specs.PatternReading.{PatternRead};
ghost use Rattle.pnp_core.specs.FindingOnTree.{FindingOnTree};
ghost use Rattle.pnp_core.specs.VirtualLaws.{PartsAreAll};

/// A text without `\` has the normal form that a path has, but for `./`: here that is `.`.
pub fn normalizes_as_normal()
    ensures { NormalizesAsNormal }
{}

/// The parts of a path are all its segments, one part behind the other, and its virtual part ends in the inner path.
pub fn parts_are_all()
    ensures { PartsAreAll }
{}

/// The search for the nearest manifest, said as a function of the tree, with its questions.
pub fn finding_on_tree()
    ensures { FindingOnTree }
{}

/// The owner of a path is the one locator that owns it by its rows: the longest location that is a component prefix of
/// the path, and of equal ones the last. Nothing owns a path in which the ignore pattern is found.
pub fn owner_owns()
    ensures { OwnerOwns }
{}

/// The nearest manifest file, said as a function of the tree, with its questions.
pub fn nearest_on_tree()
    ensures { NearestOnTree }
{}

/// The text of the nearest manifest file, said as a function of the tree, with its questions.
pub fn nearest_text_on_tree()
    ensures { NearestTextOnTree }
{}

/// The manifest that a file is, said as a function of the tree, with its question.
pub fn loaded_on_tree()
    ensures { LoadedOnTree }
{}

/// The manifest that a file is, or its refusal in Yarn's words, said as a function of the tree, with its question.
pub fn told_on_tree()
    ensures { ToldOnTree }
{}

/// The ignore pattern of a manifest is the one that the grammar of patterns gives for the text in its value.
/// A value is refused for its pattern exactly where all else in it reads and that text has a first fault.
pub fn pattern_read()
    ensures { PatternRead }
{}

/// In each manifest that the bytes of a file are, no name stands twice: of a package in the registry, of a reference
/// under it, of what a row binds.
pub fn names_stand_once()
    ensures { NamesStandOnce }
{}
