//! The kinds of steps, and what is told of the steps that were taken.

use crate::knowing::Known;
use auto_core::{Auto, List};
use bit_rel::Rel;
use delayed_sim::Delayed;
use prune_pairs::Gone;

/// A kind of step.
#[derive(Clone, Copy, Debug, PartialEq, Eq)]
pub enum Kind {
    /// The useless states go, but the initial state stays even where it is useless.
    Trim,
    /// States that the forward relation joins become one.
    Forward,
    /// States that the backward relation joins become one.
    Backward,
    /// States that the delayed relation joins become one.
    Delayed,
    /// Transitions that have a better one go.
    Prune {
        /// The approved pair of relations that says what is better, from 1 to 4.
        pair: u32,
    },
}

/// How far Duplicator sees in the games of a reduction.
#[derive(Clone, Copy, Debug, PartialEq, Eq)]
pub struct Foresight {
    /// The lookahead of the forward and backward games: at most so many moves of Spoiler's.
    pub look: u32,
    /// How many letters are asked for in the delayed game; fewer are announced where there would be
    /// too many triples.
    pub letters: u32,
}

/// What joined the states that became one.
#[derive(Debug, Drop)]
pub enum MergeBy {
    /// The greatest forward relation, given as it is, without being closed.
    Forward {
        /// Its lookahead.
        look: u32,
        /// The relation.
        rel: Rel,
    },
    /// The greatest backward relation, given as it is, without being closed.
    Backward {
        /// Its lookahead.
        look: u32,
        /// The relation.
        rel: Rel,
    },
    /// The greatest delayed relation, given as it is, without being closed.
    Delayed {
        /// The relation, with the number of announced letters and the least ranks.
        ranks: Delayed,
    },
}

/// A step that changed the automaton.
#[derive(Debug, Drop)]
pub enum Step {
    /// Only the useful states stayed, and the initial state, even where it is useless.
    Trim {
        /// The useful states, ascending; the initial state is among them only where it is useful.
        kept: List<u32>,
    },
    /// The states of each class became one.
    Merge {
        /// By what.
        by: MergeBy,
        /// The class of each state.
        classes: List<u32>,
    },
    /// The transitions that have a better one are gone.
    Cut {
        /// The approved pair of relations, from 1 to 4.
        pair: u32,
        /// The lookahead of the reduction.
        look: u32,
        /// The transitions, ascending, each with the least better one.
        gone: List<Gone>,
        /// The greatest backward relation, given as it is, without being closed, if the pair has
        /// one.
        back: Option<Rel>,
        /// The greatest forward relation, given as it is, without being closed, if the pair has
        /// one.
        ahead: Option<Rel>,
    },
}

/// An automaton that was reduced.
#[derive(Debug, Drop)]
pub struct Reduced {
    /// What it became.
    pub auto: Auto,
    /// The steps that changed something, in order.
    pub log: List<Step>,
}

/// An automaton that was reduced, with its order.
#[derive(Debug, Drop)]
pub struct Ordered {
    /// What it became.
    pub auto: Auto,
    /// The steps that changed something, in order.
    pub log: List<Step>,
    /// The greatest forward relation at lookahead 1 of what it became.
    pub order: Rel,
}

/// An automaton on its way through the steps.
#[derive(Debug, Drop)]
pub(crate) struct Going {
    /// What it is by now.
    pub(crate) auto: Auto,
    /// The steps that changed something, in order.
    pub(crate) log: List<Step>,
    /// Its greatest relations that were found.
    pub(crate) known: Known,
    /// The kinds of the steps that were tried on it and leave it as it is.
    pub(crate) idle: List<Kind>,
}

/// What a step makes, whether or not that is a change.
#[derive(Debug, Drop)]
pub(crate) struct Made {
    pub(crate) automaton: Auto,
    pub(crate) entry: Step,
}
