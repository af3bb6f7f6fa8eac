//! Tests the logs of a certificate: each step by its rules, on the automaton that the steps before
//! it lead to, which is then carried on.
#![tactic(auto)]

mod blocks;
mod closures;
mod copying;
mod cuts;
mod ends;
mod faults;
mod first;
mod keeping;
pub mod laws;
mod rankings;
mod rows;
mod second;
mod shapes;
mod stability;

pub use blocks::{is_block_below, relation_of};
pub use copying::copied_numbers;
pub use ends::{Ends, first_end, log_ends, second_end};
pub use faults::{CheckFault, Refusal};
pub use rows::rows_of;
pub use shapes::{are_states, classes_for};
pub use stability::is_stable;
