//! Checks a proof for two automata, whoever wrote it, and says which rule it breaks first.
#![tactic(auto)]

mod checking;
mod closed;
mod delayed;
pub mod laws;
mod pairs;
mod products;

pub use checking::check;
pub use proof_front::{CheckFault, Refusal};
