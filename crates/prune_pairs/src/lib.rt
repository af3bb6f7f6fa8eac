//! Pruning: transitions that have a better one, and automata without them.
#![tactic(auto)]

mod comparing;
mod cutting;
mod finding;
pub mod laws;
mod removing;

pub use comparing::better;
pub use cutting::{accepting_states, cut};
pub use removing::{Gone, removable};
