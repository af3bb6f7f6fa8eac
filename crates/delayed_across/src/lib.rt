//! Delayed simulation across two automata, without announced letters: the greatest relation with
//! its least ranks, what it decides, and the check of one that is given.
#![tactic(auto)]

mod answers;
mod checking;
mod deciding;
mod finding;
pub mod laws;
mod lookup;
mod reaching;

pub use checking::{DelayedRefusal, check};
pub use deciding::is_delayed;
pub use finding::relation;
pub use lookup::are_ascending;
pub use reaching::reached;
