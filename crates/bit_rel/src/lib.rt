//! Relations on states, one bit a pair.
#![tactic(auto)]

mod closing;
mod relation;

pub use relation::Rel;
