//! The strongly connected components of a graph, numbered so that arcs lead to components of no
//! greater number.
#![tactic(auto)]

mod finding;
mod search;

pub use finding::components_of;
