// What the definitions of trees come to in other words.
ghost use Rattle.tree_core.specs.Laws.{StandsAboveByNames};

/// A path stands above another exactly where its names are some first ones of the other's, and not all.
pub fn stands_above_by_names()
    ensures { StandsAboveByNames }
{}
