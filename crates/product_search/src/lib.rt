//! Inclusion in a deterministic automaton, decided by the pairs that are reached.
#![tactic(auto)]

mod arcs;
mod cycles;
mod deciding;
mod found;
mod going;
pub mod laws;
mod pairs;
mod ranking;

pub use deciding::{Product, decide};
