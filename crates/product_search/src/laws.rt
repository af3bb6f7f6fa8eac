//! The law of trimmed automata: the contract of a function that does nothing.

ghost use Rattle.product_search.specs.Laws.{TrimmedReachGoals};

/// The moves of a trimmed automaton lead to states that reach an accepting one on a cycle, as
/// `decide` asks.
pub fn trimmed_reach_goals()
    ensures { TrimmedReachGoals }
{}
