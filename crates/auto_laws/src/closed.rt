//! Closed sets of supergraphs, and the arcs of origins.

ghost use Rattle.auto_laws.specs.Closed.{ClosedSetIncludes, FailingPairsSeparate, OriginsHaveArcs, PlacedArcsAreReal};

/// If the supergraphs of some arcs with words are closed, the second automaton accepts each lasso
/// that the first accepts.
pub fn closed_set_includes()
    ensures { ClosedSetIncludes }
{}

/// The words of a pair of arcs whose supergraphs fail are a lasso that the first automaton accepts
/// and the second does not.
pub fn failing_pairs_separate()
    ensures { FailingPairsSeparate }
{}

/// Origins have one arc each, which is that of the origin after the arcs before it.
pub fn origins_have_arcs()
    ensures { OriginsHaveArcs }
{}

/// The arcs of origins that name transitions and earlier arcs that fit are those of runs.
pub fn placed_arcs_are_real()
    ensures { PlacedArcsAreReal }
{}
