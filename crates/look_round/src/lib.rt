//! The game of looking ahead: one round, and a bound on what it can relate by short words.
#![tactic(auto)]

mod answer_rows;
mod answering;
mod arrival_rows;
mod arrivals;
mod bounding;
mod comparing;
mod kinds;
mod known;
mod known_rows;
mod list_rounds;
mod listing;
mod moves;
mod replies;
mod reply_lists;
mod round;
mod scratch;
mod sides;
mod words;

pub use answering::Answering;
pub use bounding::bound;
pub use moves::Move;
pub use replies::is_reply;
pub use round::{round_holds, round_holds_by};
pub use scratch::Scratch;
pub use sides::{Backward, Forward, Side};
