//! Reduction of automata: useless states go, states that simulate one another become one and
//! transitions that have a better one go, until nothing changes.
#![tactic(auto)]

mod copying;
mod joining;
mod knowing;
pub mod laws;
mod making;
mod pruning;
mod reducing;
mod steps;
mod text_laws;

pub use copying::is_same_automaton;
pub use making::greatest_delayed;
pub use reducing::{reduce, reduce_ahead, reduce_ordered};
pub use steps::{Foresight, Kind, MergeBy, Ordered, Reduced, Step};
pub use text_laws::{
    a_settled_text_tells_the_automaton, a_trimmed_text_tells_the_automaton,
    the_same_by_texts_and_labels_is_the_same, the_same_by_texts_is_renumbered,
    the_same_by_texts_is_written_the_same,
};
