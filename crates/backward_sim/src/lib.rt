//! Backward simulation with lookahead: the greatest relation, its closure, and what they say of
//! paths that end in a state.
#![tactic(auto)]

pub mod laws;
mod simulation;

pub use simulation::{preorder, relation};
