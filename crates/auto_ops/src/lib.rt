//! The union and the intersection of two automata, over lassos or over finite words.
#![tactic(auto)]

mod fault;
mod intersecting;
pub mod laws;
mod limits;
mod product;
mod product_states;
mod uniting;

pub use fault::OpFault;
pub use intersecting::intersect;
pub use uniting::{add_accepting, add_shifted, union};
