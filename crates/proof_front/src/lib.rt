//! What two automata become by the front of a proof, whoever wrote it, or which rule it breaks
//! first.
#![tactic(auto)]

mod becoming;
pub mod laws;
mod letters;
mod states;

pub use becoming::both_become;
pub use log_check::{CheckFault, Ends, Refusal};
