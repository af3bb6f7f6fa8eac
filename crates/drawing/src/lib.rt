//! The two automata of a drill, drawn from a seed.
#![tactic(auto)]

mod automata;
mod generator;
pub mod laws;
mod parts;

pub use automata::drawn;
pub use generator::draws;
pub use parts::Drill;
