//! Graphs of words over the states of one automaton, in blocks of bits: two planes of rows, one row
//! for each state. The first plane has the pairs of states that are joined, the second those that
//! are joined past an accepting state.
#![tactic(auto)]

mod block;
mod covering;
mod lanes;
mod letters;
mod moves;
mod prints;
mod unions;

pub use bit_rows::{are_equal, subset};
pub use block::{arc, joined, past, same, words_of};
pub use covering::{answers, covers, targets_in};
pub use lanes::or_into;
pub use letters::{extend_by, letter};
pub use moves::extend;
pub use prints::{PairBits, Print, misses, print_of};
