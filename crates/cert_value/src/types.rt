//! A certificate as a value.

use auto_core::{Lasso, List, Mode, Origin, Word};

/// A certificate.
#[derive(Debug, Drop)]
pub struct Cert {
    /// The version of its text, 1 or 2.
    pub version: u32,
    /// What the two automata were asked.
    pub mode: Mode,
    /// How many states the read first automaton has.
    pub first_states: u32,
    /// How many states the read second automaton has.
    pub second_states: u32,
    /// How many labels the two have together.
    pub labels: u32,
    /// What it claims.
    pub body: Body,
}

/// Which form a certificate has.
#[derive(Clone, Copy, Debug, PartialEq, Eq)]
pub enum Form {
    /// Inclusion.
    Yes,
    /// A lasso or word.
    No,
    /// A limit that was met.
    List,
}

/// What a certificate claims, with its evidence.
#[derive(Debug, Drop)]
pub enum Body {
    /// Inclusion.
    Yes(YesBody),
    /// A lasso that the first accepts and the second does not.
    NoLasso(Lasso),
    /// A word that the first accepts and the second does not.
    NoWord(Word),
    /// More elements than the search was allowed.
    Listing(ListBody),
}

/// The evidence of inclusion.
#[derive(Debug, Drop)]
pub struct YesBody {
    /// The log of the first automaton's steps.
    pub first: List<FirstStep>,
    /// The log of the second automaton's steps.
    pub second: List<SecondStep>,
    /// The relation on the second log end by which elements are compared.
    pub order: RelBlock,
    /// The elements of the search, in their order.
    pub elements: List<Element>,
    /// The live elements that subsume the starts.
    pub cover: List<u32>,
    /// For each live element, the live elements that subsume its extensions.
    pub steps: List<StepLine>,
}

/// The evidence that a limit was met.
#[derive(Debug, Drop)]
pub struct ListBody {
    /// The log of the first automaton's steps.
    pub first: List<FirstStep>,
    /// The log of the second automaton's steps.
    pub second: List<SecondStep>,
    /// The limit.
    pub limit: u32,
    /// Where each element comes from.
    pub elements: List<Origin>,
}

/// A step of the first automaton's log; it may only let the language grow.
#[derive(Debug, Drop)]
pub enum FirstStep {
    /// Only these states stay, ascending.
    Trim {
        /// The states that stay.
        kept: List<u32>,
    },
    /// States of one class become one state.
    Merge {
        /// The class of each state.
        classes: List<u32>,
    },
    /// Transitions go, each for a better one.
    Cut {
        /// Which relations make a transition better, from 1 to 4.
        pair: u32,
        /// The lookahead of the relations.
        look: u32,
        /// What goes, by which.
        gone: List<GoneBy>,
        /// The relations of the pair.
        blocks: List<RelBlock>,
    },
}

/// A step of the second automaton's log; it may only let the language shrink.
#[derive(Debug, Drop)]
pub enum SecondStep {
    /// Only these states stay, ascending.
    Trim {
        /// The states that stay.
        kept: List<u32>,
    },
    /// States of one class become one state.
    Merge {
        /// Why they may.
        by: Grounds,
        /// The class of each state.
        classes: List<u32>,
    },
    /// These transitions go, ascending.
    Cut {
        /// What goes.
        gone: List<u32>,
    },
}

/// Why states may become one.
#[derive(Debug, Drop)]
pub enum Grounds {
    /// A forward relation.
    Forward {
        /// Its lookahead.
        look: u32,
        /// The relation.
        rel: RelBlock,
    },
    /// A backward relation.
    Backward {
        /// Its lookahead.
        look: u32,
        /// The relation.
        rel: RelBlock,
    },
    /// A delayed relation.
    Delayed {
        /// How many letters are announced, from 1 to 4, and 1 in version 1.
        letters: u32,
        /// The relation with its ranks.
        ranks: RankBlock,
    },
}

/// A transition that goes, and the better one.
#[derive(Clone, Copy, Debug, PartialEq, Eq)]
pub struct GoneBy {
    /// What goes.
    pub trans: u32,
    /// The better one.
    pub by: u32,
}

/// A relation: exactly the pairs that it lists.
#[derive(Debug, Drop)]
pub struct RelBlock {
    /// A row for each left number that has a right one, ascending.
    pub rows: List<Row>,
}

/// The pairs of one left number.
#[derive(Debug, Drop)]
pub struct Row {
    /// The left number.
    pub left: u32,
    /// The right numbers as runs, ascending; no run begins right after the one before.
    pub runs: List<Run>,
}

/// Numbers that follow one another.
#[derive(Clone, Copy, Debug, PartialEq, Eq)]
pub struct Run {
    /// The first of them.
    pub first: u32,
    /// The last of them.
    pub last: u32,
}

/// A relation with ranks: exactly the triples that it lists.
#[derive(Debug, Drop)]
pub struct RankBlock {
    /// A row for each left number and word that have a right number, ascending.
    pub rows: List<RankRow>,
}

/// The triples of one left number and one word, with their ranks.
#[derive(Debug, Drop)]
pub struct RankRow {
    /// The left number.
    pub left: u32,
    /// The word: one label fewer than letters are announced.
    pub ahead: List<u32>,
    /// The right numbers, ascending, each with its code.
    pub rights: List<Ranked>,
}

/// A right number with its rank.
#[derive(Clone, Copy, Debug, PartialEq, Eq)]
pub struct Ranked {
    /// The right number.
    pub right: u32,
    /// 0 for a triple without a rank, and otherwise the rank plus 1.
    pub code: u32,
}

/// An element of the search.
#[derive(Clone, Copy, Debug, PartialEq, Eq)]
pub struct Element {
    /// Whether it is live.
    pub mark: Mark,
    /// Where it comes from.
    pub origin: Origin,
}

/// Whether an element is live.
#[derive(Clone, Copy, Debug, PartialEq, Eq)]
pub enum Mark {
    /// It is live.
    Live,
    /// It is subsumed by the live element with this number.
    Under(u32),
}

/// The extensions of a live element.
#[derive(Debug, Drop)]
pub struct StepLine {
    /// The live element.
    pub element: u32,
    /// For each transition out of the state that it leads to, a live element that subsumes the
    /// extension.
    pub by: List<u32>,
}
