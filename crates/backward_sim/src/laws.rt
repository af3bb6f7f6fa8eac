//! The laws of the greatest backward relation: each is the contract of a function that does
//! nothing.

ghost use Rattle.backward_sim.specs.Preorders.{GreatestBackwardIsOne, GreatestBackwardIsFollowed, GreatestReachesTheEnd, GreatestBackwardIsReflexive};

/// There is one greatest relation.
pub fn greatest_is_one()
    ensures { GreatestBackwardIsOne }
{}

/// What its closure relates matches, and paths of the moves backward from the first are followed
/// from the second.
pub fn greatest_is_followed()
    ensures { GreatestBackwardIsFollowed }
{}

/// A path that ends in the first has a matching one that ends in the second, from the initial state
/// if the first begins there.
pub fn greatest_reaches_the_end()
    ensures { GreatestReachesTheEnd }
{}

/// It relates each state to itself.
pub fn greatest_is_reflexive()
    ensures { GreatestBackwardIsReflexive }
{}
