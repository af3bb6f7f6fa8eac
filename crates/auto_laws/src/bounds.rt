//! The bounds on the length of a list of pairwise different elements.

ghost use Rattle.auto_laws.specs.Bounds.{BoundsRise, ListedPairsAreFew, ListedSupergraphsAreFew, PairsAreFew, SupergraphsAreFew};

/// Pairwise different supergraphs are no more than the bound for as many states as the automata
/// have, or for more.
pub fn supergraphs_are_few()
    ensures { SupergraphsAreFew }
{}

/// Pairwise different pairs of a state and a set are no more than the bound on pairs, in the same
/// way.
pub fn pairs_are_few()
    ensures { PairsAreFew }
{}

/// A list of different supergraphs is no longer than their bound.
pub fn listed_supergraphs_are_few()
    ensures { ListedSupergraphsAreFew }
{}

/// A list of different pairs is no longer than theirs.
pub fn listed_pairs_are_few()
    ensures { ListedPairsAreFew }
{}

/// Neither bound falls where the numbers of states grow.
pub fn bounds_rise()
    ensures { BoundsRise }
{}
