//! Lassos that spell one infinite word, and the product of an automaton with the lasso that it is
//! to read.
#![tactic(auto)]

mod factors;
mod finding;
pub mod laws;
mod made;
mod positions;
mod product;

pub use finding::{Answer, accepted_lasso, lasso_read};
pub use product::product_with;
