//! What every crate of `rabit` speaks of: automata, words, lassos, and the definitions and laws of
//! their runs.
#![tactic(auto)]

mod automaton;
pub mod laws;
mod limits;
mod listing;
mod making;
mod parts;
pub mod reach;
pub mod rows;
mod state_set;
mod tables;

pub use automaton::{Auto, BuildFault};
pub use limits::MOST_TRIPLES_WITH_A_LETTER;
pub use listing::{List, append};
pub use making::of_parts;
pub use parts::{Lasso, Memory, Mode, Origin, Span, Trans, Word};
pub use state_set::StateSet;
