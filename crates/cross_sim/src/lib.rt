//! Simulation with lookahead across two automata: the greatest cross relation, and the check of one
//! as a proof of inclusion. Its text is that of `cert_text`.
#![tactic(auto)]

mod across;
mod check;
mod faults;
mod finding;
pub mod laws;
mod raising;
mod simulation;
mod written;

pub use cert_text::{Cross, cross_formed, read_cross, write_cross};
pub use check::check_cross;
pub use faults::{CheckCrossFault, CrossRefusal};
pub use finding::find_cross;
pub use simulation::relation;
pub use written::cross_of;
