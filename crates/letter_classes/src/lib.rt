//! Classes of the letters that an automaton does not tell apart, and automata over such classes.
#![tactic(auto)]

mod classes;
mod classing;
mod columns;
mod renaming;

pub use classes::{ClassFault, LetterClasses};
pub use classing::{check, classes_of};
pub use renaming::renamed;
