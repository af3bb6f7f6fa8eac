//! Maps of states that carry an automaton over into another: their check.
#![tactic(auto)]

mod checking;
mod moves;

pub use checking::{MapFault, check};
pub use moves::has_move;
