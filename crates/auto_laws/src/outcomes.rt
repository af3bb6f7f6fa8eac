//! What the outcome of the search tells.

ghost use Rattle.auto_laws.specs.Outcomes.{ApartSeparates, ClosedListIncludes, ClosedListIsClosedSet, GreatestIsAnOrder, LimitLists, LiveOnesAreEnough, LiveOnesStandApart, OneOutcome, OriginsFit};

/// A search ends in one way.
pub fn one_outcome()
    ensures { OneOutcome }
{}

/// The origins of the elements of a closed list, and of one longer than the limit, make the
/// elements' arcs.
pub fn origins_fit()
    ensures { OriginsFit }
{}

/// The elements of a closed list are a closed set.
pub fn closed_list_is_closed_set()
    ensures { ClosedListIsClosedSet }
{}

/// Where the search ends with a closed list, the second automaton accepts each lasso that the first
/// accepts.
pub fn closed_list_includes()
    ensures { ClosedListIncludes }
{}

/// No live element of a closed list subsumes another.
pub fn live_ones_stand_apart()
    ensures { LiveOnesStandApart }
{}

/// Where the search tells a pair apart, the pair's words are a lasso that the first automaton
/// accepts and the second does not.
pub fn apart_separates()
    ensures { ApartSeparates }
{}

/// A list longer than the limit holds pairwise different supergraphs, none of them subsumed by an
/// earlier one.
pub fn limit_lists()
    ensures { LimitLists }
{}

/// Some element subsumes just where some live one does.
pub fn live_ones_are_enough()
    ensures { LiveOnesAreEnough }
{}

/// The greatest forward relation at lookahead 1 relates each state to itself and goes on from what
/// it relates.
pub fn greatest_is_an_order()
    ensures { GreatestIsAnOrder }
{}
