//! The greatest relation that a game of looking ahead keeps.
#![tactic(auto)]

mod asked;
mod game;
mod losing;
mod near;
mod rounds;
mod sweeping;
mod visiting;

pub use game::{greatest, greatest_at_one, greatest_with};
pub use rounds::greatest_by_rounds;
