//! Classes of states, and the automaton whose states are the classes.
#![tactic(auto)]

mod classes;
mod classing;
pub mod laws;
mod merging;

pub use classes::{ClassFault, Classes};
pub use classing::classes_of;
pub use merging::merge;
