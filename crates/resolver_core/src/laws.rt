// The law of every resolver, and what a mapping comes to on each tree. The resolvers have it by their contracts.
ghost use Rattle.resolver_core.specs.Laws.{VersionsAlike};
ghost use Rattle.resolver_core.specs.MappingOnTree.{FirstAnswerDecides, MappingOnTree};
ghost use Rattle.resolver_core.specs.Resolving.{TrailsSuffice};

use crate::Resolve;

/// Trees that give the same replies to what one of them is asked by a resolver's order have one answer, and are asked
/// the same.
pub fn trails_suffice<R: Resolve>()
    ensures { TrailsSuffice R.order }
{}

/// What a mapping in front of an order tells of each tree, as one function of what that order tells there.
pub fn mapping_on_tree<X>()
    ensures { MappingOnTree X }
{}

/// What a mapping answers is made of the first inner request that is answered, or is an answer that nothing checks,
/// where each was refused.
pub fn first_answer_decides<X>()
    ensures { FirstAnswerDecides X }
{}

/// Where no pattern has text behind its `*`, both versions of settings map each request to the same tries.
pub fn versions_alike()
    ensures { VersionsAlike }
{}
