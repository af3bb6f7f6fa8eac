//! The words of the command line: one fixed command, and the question that its matches give.
#![tactic(auto)]

mod asking;
mod command;
mod number;
mod parts;

pub use asking::question;
pub use parts::{Question, USUAL_LETTERS, USUAL_LIMIT, USUAL_LOOK};
