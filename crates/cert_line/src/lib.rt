//! What one line of a certificate's text says, or what is wrong with it, in both versions.
#![tactic(auto)]

mod faults;
mod heads;
mod lines;
mod origins;
mod shapes;
mod straight;
mod words;

pub use faults::{LineFault, TextKind};
pub use heads::{FirstHead, SecondHead, Way, first_head_in, second_head_in};
pub use lines::{
    Heading, Sizes, ascending_in, gone_by_in, heading_in, joined_runs, number_in, numbers_in,
    rank_row_in, row_in, sizes_in, step_in, word_in,
};
pub use origins::{element_in, origin_in};
pub use shapes::{Place, Tail, line_fault};
pub use words::{form_word, mode_word, version_word};
