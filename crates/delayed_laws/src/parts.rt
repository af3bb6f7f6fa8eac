//! Pairs of states with ranks.

/// A pair of a state of the first automaton and a state of the second, with a rank or without one.
#[derive(Clone, Copy, Debug, PartialEq, Eq)]
pub struct DelayedPair {
    /// The state of the first automaton.
    pub left: u32,
    /// The state of the second.
    pub right: u32,
    /// The rank, if the pair has one.
    pub rank: Option<u32>,
}
