//! The laws of the greatest forward relation: each is the contract of a function that does nothing.

ghost use Rattle.direct_sim.specs.Preorders.{GreatestForwardIsOne, GreatestForwardIsFollowed, GreatestFollowsMoves, GreatestForwardIsReflexive, GreatestIsPreorder};

/// There is one greatest relation.
pub fn greatest_is_one()
    ensures { GreatestForwardIsOne }
{}

/// What its closure relates matches, and paths from the first are followed from the second.
pub fn greatest_is_followed()
    ensures { GreatestForwardIsFollowed }
{}

/// At lookahead 1 it holds at each place of a path and of the one that follows it.
pub fn greatest_follows_moves()
    ensures { GreatestFollowsMoves }
{}

/// It relates each state to itself.
pub fn greatest_is_reflexive()
    ensures { GreatestForwardIsReflexive }
{}

/// At lookahead 1 it is reflexive on the states and transitive.
pub fn greatest_is_preorder()
    ensures { GreatestIsPreorder }
{}
