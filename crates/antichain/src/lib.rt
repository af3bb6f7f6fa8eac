//! The search for a closed set of pairs of a state and a set of states: whether an automaton
//! accepts each word that another accepts, with the evidence.
#![tactic(auto)]

mod candidates;
mod closing;
mod family;
mod meeting;
mod pairs;
mod parts;
mod searching;
mod sets;
mod turns;

pub use evidence::Closure;
pub use parts::WordOutcome;
pub use searching::search;
