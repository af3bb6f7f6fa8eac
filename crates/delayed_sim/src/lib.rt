//! Delayed simulation with announced letters and ranks: the relation, the test whether one is
//! right, and the greatest one.
#![tactic(auto)]

mod delayed;
mod entries;
mod game;
pub mod laws;
mod letters;
mod listing;
mod places;
mod relating;
mod right;
mod rounds;
mod unasked;
mod words;

pub use delayed::{Delayed, RankedTriple};
pub use game::greatest;
pub use letters::letters_for;
pub use listing::rank_in_code;
pub use right::holds;
pub use rounds::greatest_by_rounds;
