//! What a command line can ask.

use auto_core::Mode;

/// The lookahead of a decision that names none.
pub const USUAL_LOOK: u32 = 3;
/// The most elements of a search that names no limit.
pub const USUAL_LIMIT: u32 = 20_000;
/// How many letters are asked for where none are named.
pub const USUAL_LETTERS: u32 = 1;

/// A question: a command with its files' names and its numbers.
#[derive(Debug, Drop)]
pub enum Question {
    /// Decides an inclusion and writes its certificate.
    Include {
        /// The first automaton's file.
        first: String,
        /// The second automaton's file.
        second: String,
        /// The file that the certificate is written to.
        certificate: String,
        /// Lassos or finite words.
        mode: Mode,
        /// The lookahead of the reductions, from 1 to 6.
        look: u32,
        /// The most elements of the search, from 1 to 100,000.
        limit: u32,
        /// How many letters are asked for in the delayed game, from 1 to 4, with a certificate of
        /// version 2; None asks for one of version 1.
        letters: Option<u32>,
    },
    /// Checks a certificate.
    Check {
        /// The first automaton's file.
        first: String,
        /// The second automaton's file.
        second: String,
        /// The certificate's file.
        certificate: String,
    },
    /// Reduces an automaton.
    Reduce {
        /// The automaton's file.
        name: String,
        /// Lassos or finite words.
        mode: Mode,
        /// The lookahead, from 1 to 6.
        look: u32,
        /// How many letters are asked for in the delayed game, from 1 to 4.
        letters: u32,
    },
    /// Makes two automata, decides both inclusions and checks both certificates.
    Drill {
        /// The seed of the numbers that are drawn.
        seed: u32,
        /// The states of each automaton, from 2 to 512.
        states: u32,
        /// The labels, from 1 to 26.
        labels: u32,
    },
    /// Writes a certificate in version 2.
    Upgrade {
        /// The certificate's file.
        certificate: String,
        /// The file that the certificate of version 2 is written to.
        upgraded: String,
    },
    /// Looks for a simulation of an automaton by another, and writes it.
    Cross {
        /// The first automaton's file.
        first: String,
        /// The second automaton's file.
        second: String,
        /// The file that the relation is written to.
        relation: String,
        /// The lookahead, from 1 to 6.
        look: u32,
    },
    /// Checks a simulation of an automaton by another.
    CrossCheck {
        /// The first automaton's file.
        first: String,
        /// The second automaton's file.
        second: String,
        /// The relation's file.
        relation: String,
    },
    /// Decides whether two automata accept the same, and writes the certificates of both
    /// inclusions.
    Equal {
        /// The first automaton's file.
        first: String,
        /// The second automaton's file.
        second: String,
        /// The file that the certificate of whether the first is included in the second is written
        /// to.
        certificate: String,
        /// The file that the certificate of whether the second is included in the first is written
        /// to.
        converse: String,
    },
    /// Decides inclusions one after the other.
    Batch {
        /// The file with the list of questions.
        list: String,
    },
    /// Makes the union of two automata.
    Union {
        /// The first automaton's file.
        first: String,
        /// The second automaton's file.
        second: String,
        /// Lassos or finite words.
        mode: Mode,
    },
    /// Makes the intersection of two automata.
    Intersect {
        /// The first automaton's file.
        first: String,
        /// The second automaton's file.
        second: String,
        /// Lassos or finite words.
        mode: Mode,
    },
    /// Leaves out the letters of a certificate's lasso, or of its word, that are not needed.
    Shrink {
        /// The first automaton's file.
        first: String,
        /// The second automaton's file.
        second: String,
        /// The certificate's file.
        certificate: String,
        /// The file that the shorter certificate is written to.
        shorter: String,
    },
    /// Decides whether an automaton accepts nothing, and writes an automaton that does and the
    /// certificate.
    Empty {
        /// The automaton's file.
        automaton: String,
        /// The file that the automaton without a lasso is written to.
        made: String,
        /// The file that the certificate is written to.
        certificate: String,
        /// Lassos or finite words.
        mode: Mode,
    },
    /// Decides whether an automaton accepts everything over its labels, and writes an automaton
    /// that does and the certificate.
    Universal {
        /// The automaton's file.
        automaton: String,
        /// The file that the automaton with all lassos is written to.
        made: String,
        /// The file that the certificate is written to.
        certificate: String,
        /// Lassos or finite words.
        mode: Mode,
    },
}
