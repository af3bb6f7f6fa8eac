//! Arcs of one automaton, which with graphs of another are supergraphs: the first, their
//! extensions, when one subsumes another, graphs without needless arcs, and the words of arcs given
//! by their origins.
#![tactic(auto)]

mod arcs;
mod minimal;
mod words;

pub use arcs::{Arc, base, extend, subsumes};
pub use minimal::minimise;
pub use words::word_of;
