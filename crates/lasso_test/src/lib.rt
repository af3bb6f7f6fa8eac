//! Tells whether two graphs have a lasso: from a state, an arc of the first, then arcs of the
//! second that come back past an accepting state.
#![tactic(auto)]

pub mod laws;
mod looping;
mod passing;

pub use looping::enters;
pub use passing::{Scratch, mark_looping, passes};
