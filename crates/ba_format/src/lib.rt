//! The text format `.ba` of automata: reading, writing, and joining two read automata over common
//! labels.
#![tactic(auto)]

mod cut;
mod draft;
mod joining;
pub mod laws;
mod lines;
mod parts;
mod pieces;
mod reading;
mod reading_laws;
mod texts;
mod writing;

pub use cut::split_line;
pub use joining::join;
pub use lines::TOKEN_LIMIT;
pub use parts::{BaFault, BaKind, Joined, Limits, Named, ReadFault};
pub use pieces::Reader;
pub use reading::read;
pub use reading_laws::{
    a_join_is_over_the_joined_labels, a_written_automaton_is_read_back,
    a_written_automaton_joins_with_what_its_text_reads_as, joined_labels_are_few,
    the_order_of_a_join_does_not_matter, two_read_automata_have_a_join,
};
pub use texts::Texts;
pub use writing::write;
