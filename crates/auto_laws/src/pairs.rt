//! The laws of the search on finite words. Where a law below speaks of the order, that is the
//! greatest relation of the second automaton that is stable forward at lookahead 1, and the second
//! automaton is valid; the live elements are those that no later one subsumes.

ghost use Rattle.auto_laws.specs.PairOutcomes.{ApartSeparatesWord, ClosedListIncludesWords, ClosedListIsClosedPairs, ClosedPairsInclude, FailingPairSeparates, LimitListsPairs, LivePairsAreEnough, LivePairsStandApart, OnePairOutcome, PairOriginsFit, PairSubsumptionIsKept, PlacedPairsAreReached, ReachedPairsAreReal, SetsExtend};

/// The set of a word with one letter more is that after the letter.
pub fn sets_extend()
    ensures { SetsExtend }
{}

/// The pair of a reached arc is one of its word.
pub fn reached_pairs_are_real()
    ensures { ReachedPairsAreReal }
{}

/// Subsuming by a relation that is stable forward at lookahead 1 is kept where both pairs are
/// extended by the same transition.
pub fn pair_subsumption_is_kept()
    ensures { PairSubsumptionIsKept }
{}

/// Where there is a closed set of pairs, the second automaton accepts each word that the first
/// accepts.
pub fn closed_pairs_include()
    ensures { ClosedPairsInclude }
{}

/// A pair that fails has a word that the first automaton accepts and the second does not.
pub fn failing_pair_separates()
    ensures { FailingPairSeparates }
{}

/// Each arc of origins that are placed is reached.
pub fn placed_pairs_are_reached()
    ensures { PlacedPairsAreReached }
{}

/// The search on finite words ends in one way.
pub fn one_pair_outcome()
    ensures { OnePairOutcome }
{}

/// The origins of the elements of a closed list, and of one longer than the limit, make the
/// elements' arcs.
pub fn pair_origins_fit()
    ensures { PairOriginsFit }
{}

/// The elements of a closed list, its live ones marked so, are a closed set of pairs under the
/// order.
pub fn closed_list_is_closed_pairs()
    ensures { ClosedListIsClosedPairs }
{}

/// Where the search under the order ends with a closed list, the second automaton accepts each word
/// that the first accepts.
pub fn closed_list_includes_words()
    ensures { ClosedListIncludesWords }
{}

/// No live element of a closed list subsumes another.
pub fn live_pairs_stand_apart()
    ensures { LivePairsStandApart }
{}

/// Where the search tells an element apart, its word is one that the first automaton accepts and
/// the second does not.
pub fn apart_separates_word()
    ensures { ApartSeparatesWord }
{}

/// A list longer than the limit, of the search under the order, holds pairwise different pairs,
/// none of them subsumed by an earlier one.
pub fn limit_lists_pairs()
    ensures { LimitListsPairs }
{}

/// Some element subsumes, under the order, just where some live one does.
pub fn live_pairs_are_enough()
    ensures { LivePairsAreEnough }
{}
