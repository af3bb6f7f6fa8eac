//! What two answers say together of equality, and lists of questions as texts.
#![tactic(auto)]

mod equality;
mod fault;
pub mod laws;
mod lines;
mod outcome;
mod questions;

pub use equality::both;
pub use fault::ListFault;
pub use outcome::Both;
pub use questions::{Question, read_list};
