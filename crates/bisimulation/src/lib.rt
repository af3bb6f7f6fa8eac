//! The coarsest bisimulation of an automaton.
#![tactic(auto)]

mod finding;
mod gathering;
mod numbering;
mod partition;
mod signing;

pub use finding::coarsest;
