// Laws, each proved for all trees and texts.
ghost use Rattle.es_pattern.specs.Laws.{FoundTells, PatternTells};

/// The function that tells whether a tree is found in a text tells that the tree spans a part of it.
pub fn found_tells()
    ensures { FoundTells }
{}

/// The function that gives a text its tree gives the one that the grammar has for it, and none exactly
/// where something in the text is refused.
pub fn pattern_tells()
    ensures { PatternTells }
{}
