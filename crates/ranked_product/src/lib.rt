//! Ranked products of an automaton with a deterministic one: their check.
#![tactic(auto)]

mod checking;
mod deterministic;
mod finding;
pub mod laws;

pub use checking::{Refusal, check};
pub use deterministic::is_deterministic;
pub use finding::are_ascending;
