//! Which states are useful, in time and memory linear in states and transitions, and automata that
//! keep some of their states.
//!
//! ```text
//! states        0       1       2       3       4        0 is initial, 2 accepts
//! moves         1 3  |  2    |  1    |       |  2        by source: those of a state are a span
//! components    2       0       0       1       3        by number; no move leads to a greater one
//! goals                         x                        it accepts, and a move leads to its own number
//! before goals  x       x       x               x        what reaches a goal
//! reached       x       x       x       x                what the initial state reaches
//! useful        x       x       x                        both
//!
//! set           x       x       x               x        what was gathered from 2 back: a flag for each state,
//! list          2   1   4   0                            and the same states in the order in which they came;
//!                       ^ at                             what leads to those before `at` is there
//! ```
//!
//! Each transition is looked at once for the graph and once for its components, once on the way
//! from the initial state, once on the way back from the goals, and once more if its source
//! accepts; a few numbers are kept for each state and each transition. Tables of states by states,
//! in which a cycle could be looked for from each goal in turn, would need 8 GiB for the 262,144
//! states that a model checker's automaton may have.
#![tactic(auto)]

mod cycles;
mod direction;
mod gathering;
mod keeping;
pub mod laws;
mod searching;

pub use cycles::{component_numbers, is_on_cycle};
pub use direction::Direction;
pub use gathering::Gathered;
pub use keeping::{keep, trim};
pub use searching::useful;
