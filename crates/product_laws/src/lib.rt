//! The laws of the product of an automaton with a deterministic one: each is the contract of a
//! function that does nothing.
#![tactic(auto)]

ghost use Rattle.product_laws.specs.Laws.{RankedProductIncludes, CycleSeparates, LostRunSeparates, IncludedHasNoFault};
ghost use Rattle.product_laws.specs.ClosedPairs.{ClosedPairsAreProduct};

/// A pair of states of two automata, with its rank.
#[derive(Clone, Copy, Debug, PartialEq, Eq, PartialOrd, Ord)]
pub struct RankedPair {
    /// The state of the first automaton.
    pub left: u32,
    /// The state of the second.
    pub right: u32,
    /// The rank.
    pub rank: u32,
}

/// If there is a ranked product, the second automaton accepts each lasso that the first accepts.
pub fn ranked_product_includes()
    ensures { RankedProductIncludes }
{}

/// A cycle of pairs past an accepting state of the first automaton and none of the second separates
/// them.
pub fn cycle_separates()
    ensures { CycleSeparates }
{}

/// A word that the second automaton cannot read, while the first goes on to a goal, separates them.
pub fn lost_run_separates()
    ensures { LostRunSeparates }
{}

/// If the second automaton accepts each lasso that the first accepts, neither is there.
pub fn included_has_no_fault()
    ensures { IncludedHasNoFault }
{}

/// Closed pairs with ranks are a ranked product, if each move of the first automaton leads on to an
/// accepting state on a cycle.
pub fn closed_pairs_are_product()
    ensures { ClosedPairsAreProduct }
{}
