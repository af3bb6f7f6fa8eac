//! What a right delayed relation across two automata gives, and what gives one.

ghost use Rattle.delayed_laws.specs.Across.{DelayedAcrossIncludes, CrossRelationsAreDelayed, RightStaysInRange};
ghost use Rattle.delayed_laws.specs.Announced.{DelayedPlacesInclude};
ghost use Rattle.delayed_laws.specs.Greatest.{GreatestDecides, GreatestIsOne};

/// Where there is a delayed simulation of the first automaton by the second, the second accepts
/// each lasso that the first accepts.
pub fn delayed_across_includes()
    ensures { DelayedAcrossIncludes }
{}

/// A relation that is stable across at lookahead 1 is right, with rank 0 at the accepting states of
/// the first automaton and no other rank.
pub fn cross_relations_are_delayed()
    ensures { CrossRelationsAreDelayed }
{}

/// A right relation stays right, with its ranks, without the pairs of numbers that are no states.
pub fn right_stays_in_range()
    ensures { RightStaysInRange }
{}

/// With announced letters too the second automaton accepts each lasso that the first accepts.
pub fn delayed_places_include()
    ensures { DelayedPlacesInclude }
{}

/// Some right relation holds the pair of the initial states just where the greatest one does.
pub fn greatest_decides()
    ensures { GreatestDecides }
{}

/// Any two greatest ones have the same pairs with the same ranks.
pub fn greatest_is_one()
    ensures { GreatestIsOne }
{}
