//! Checks a certificate for two automata, whoever wrote it, and says what it shows.
#![tactic(auto)]

mod blocks;
mod checking;
mod covers;
mod elements;
mod faults;
mod firsts;
mod inclusion;
mod keys;
mod lassos;
pub mod laws;
mod listing;
mod orders;
mod pairs;
mod passing;
mod seen;
mod steps;
mod words;

pub use checking::check;
pub use faults::Verdict;
pub use inclusion::check_inclusion;
pub use lassos::check_lasso;
pub use log_check::{CheckFault, Refusal};
