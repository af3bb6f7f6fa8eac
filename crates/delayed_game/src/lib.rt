//! The delayed game of pairs from the states of one automaton, the places, to the states of
//! another: the pairs that are right, with their least ranks.
#![tactic(auto)]

mod before;
mod blocks;
mod board;
mod levels;
mod mending;
mod pairs;
mod playing;
mod sets;
mod settling;

pub use board::Board;
pub use pairs::pair_number;
pub use playing::play;
