// What the searches come to on each tree, and which questions they put. The calls have it by their contracts.
ghost use Rattle.swc_loader.specs.SearchOnTree.{FolderOnTree, PlaceOnTree, PlainPlaceOnTree};
ghost use Rattle.swc_loader.specs.WalkOnTree.{WalkOnTree};
ghost use Rattle.swc_loader.specs.LocatedOnTree.{LocatedOnTree};
ghost use Rattle.swc_loader.specs.BrowserRulesOnTree.{RulesOnTree, RuleOnTree};
ghost use Rattle.swc_loader.specs.NodeOnTree.{NameOnTree, AnswerOnTree, BeforeSearchOnTree};
ghost use Rattle.swc_loader.specs.NodeOnTree.{NodeSearchOnTree, NodeOnTree};

/// The search of a folder, said as a function of the tree, with its questions.
pub fn folder_on_tree()
    ensures { FolderOnTree }
{}

/// The search of the place of any text that means a path, said as a function of the tree, with its questions.
pub fn place_on_tree()
    ensures { PlaceOnTree }
{}

/// The search of the place of a text without entry, said as a function of the tree, with its questions.
pub fn place_without_entry_on_tree()
    ensures { PlainPlaceOnTree }
{}

/// The walk up through the folders' `node_modules`, said as a function of the tree, with its questions.
pub fn walk_on_tree()
    ensures { WalkOnTree }
{}

/// The rules of a package.json, said as a function of the tree, with their questions.
pub fn rules_on_tree()
    ensures { RulesOnTree }
{}

/// What the rules for a path say of a source, said as a function of the tree, with its questions.
pub fn rule_on_tree()
    ensures { RuleOnTree }
{}

/// The search at the location of a package, said as a function of the tree, with its questions.
pub fn located_on_tree()
    ensures { LocatedOnTree }
{}

/// The name that a file is answered by, said as a function of the tree, with its question.
pub fn name_on_tree()
    ensures { NameOnTree }
{}

/// The answer of a file that was found, said as a function of the tree, with its question.
pub fn answer_on_tree()
    ensures { AnswerOnTree }
{}

/// What is decided before a search, or its target, said as a function of the tree, with its questions.
pub fn before_search_on_tree()
    ensures { BeforeSearchOnTree }
{}

/// The search by a target, said as a function of the tree, with its questions.
pub fn search_on_tree()
    ensures { NodeSearchOnTree }
{}

/// The order of search for Node's modules, said as a function of the tree, with its questions.
pub fn node_on_tree()
    ensures { NodeOnTree }
{}
