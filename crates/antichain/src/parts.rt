//! What the search gives, and what it keeps while it goes.

use auto_core::{List, Origin, Word};
use evidence::Closure;

/// How the search ends.
#[derive(Debug, Drop)]
pub enum WordOutcome {
    /// The elements are closed: the second automaton accepts each word that the first accepts.
    Closed(Closure),
    /// The first automaton accepts this word, and the second does not.
    Apart(Word),
    /// One element more than the limit, none subsumed by an earlier one.
    Limit(List<Origin>),
}

/// An element as it is kept: where it comes from, its state, its set as a row of bits, the states
/// that the order relates to a member of it, and the first word of both rows, which settles most
/// comparisons.
#[derive(Debug, Drop)]
pub(crate) struct Held {
    pub(crate) origin: Origin,
    pub(crate) state: u32,
    pub(crate) members: Vec<u64>,
    pub(crate) below: Vec<u64>,
    pub(crate) head: u64,
    pub(crate) below_head: u64,
}

/// Whether the search goes on after a candidate.
#[derive(Clone, Copy, Debug)]
pub(crate) enum Fate {
    /// It goes on.
    GoesOn,
    /// It ends: the element with this number fails.
    Apart(u32),
    /// It ends: the last element is one more than the limit.
    Limit,
}
