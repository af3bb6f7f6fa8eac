//! The laws of pruning: each is the contract of a function that does nothing.

ghost use Rattle.prune_pairs.specs.Laws.{PruningIsSame, PrunedIsSame, CutIsOne, PrunedIsOne, CutOfNothing, CutIsShorter, PrunedIsShorter, PrunedIsItself, BetterGoesByStates, RemovableArePruned, RemovableIsOne};

/// Cutting any transitions that each have a better one, by one approved pair over the closures of
/// stable relations, leaves what is accepted, in both modes.
pub fn pruning_is_same()
    ensures { PruningIsSame }
{}

/// A pruned automaton accepts the same, in both modes.
pub fn pruned_is_same()
    ensures { PrunedIsSame }
{}

/// Cutting these transitions gives one automaton.
pub fn cut_is_one()
    ensures { CutIsOne }
{}

/// Pruning gives one automaton.
pub fn pruned_is_one()
    ensures { PrunedIsOne }
{}

/// Cutting nothing leaves the automaton.
pub fn cut_of_nothing()
    ensures { CutOfNothing }
{}

/// Cutting something leaves fewer transitions.
pub fn cut_is_shorter()
    ensures { CutIsShorter }
{}

/// Pruning leaves the automaton or leaves fewer transitions.
pub fn pruned_is_shorter()
    ensures { PrunedIsShorter }
{}

/// Pruning leaves the automaton just where no transition has a better one.
pub fn pruned_is_itself()
    ensures { PrunedIsItself }
{}

/// Which transition is better goes by the pairs of states alone, so that closures on the states
/// serve for closures.
pub fn better_goes_by_states()
    ensures { BetterGoesByStates }
{}

/// Cutting all removable transitions is pruning, if they were found by closures of the greatest
/// relations.
pub fn removable_are_pruned()
    ensures { RemovableArePruned }
{}

/// The removable transitions with their least better ones are one list.
pub fn removable_is_one()
    ensures { RemovableIsOne }
{}
