//! Shorter lassos and words that still tell two automata apart.
#![tactic(auto)]

mod copying;
mod lassos;
pub mod laws;
mod places;
mod rests;
mod words;

pub use lassos::shrink;
pub use words::shrink_word;
