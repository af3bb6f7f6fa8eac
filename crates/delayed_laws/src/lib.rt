//! The laws of delayed simulation across two automata: each is the contract of a function that does
//! nothing.
#![tactic(auto)]

mod laws;
mod parts;

pub use laws::{
    cross_relations_are_delayed, delayed_across_includes, delayed_places_include, greatest_decides,
    greatest_is_one, right_stays_in_range,
};
pub use parts::DelayedPair;
