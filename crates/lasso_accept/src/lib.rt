//! Tells whether an automaton accepts a lasso or a word, and by which run.
#![tactic(auto)]

mod acceptance;
mod countdown;
mod guide;
pub mod laws;
mod looping;
mod planes;
mod runs;
mod spelling;
mod tables;
mod tails;
mod words;

pub use acceptance::accepts_lasso;
pub use guide::step_back;
pub use looping::{accepts_loop_from, rests_of};
pub use planes::Planes;
pub use runs::{LassoRun, run_of};
pub use tails::{Tail, Tails};
pub use words::accepts_word;
