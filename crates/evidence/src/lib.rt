//! The evidence of a closed search: its elements with their marks, and the least live ones that
//! subsume what is to be covered. It is told over the rules of any search, so that it serves
//! searches over supergraphs and over pairs of a state and a set alike.
#![tactic(auto)]

mod laws;
mod parts;

pub use laws::entries_have_origins;
pub use parts::Closure;
