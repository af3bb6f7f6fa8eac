//! Automata that are made to accept more where no lasso notices: a state accepts too where no cycle
//! of its strongly connected component avoids acceptance. In time and memory linear in states and
//! transitions.
//!
//! ```text
//! states        0       1       2       3       4        0 is initial, 1 and 3 accept
//! moves         1    |  2    |  1 3  |  4    |  3 4      by source
//! components    {0}     {1 2}   {1 2}   {3 4}   {3 4}
//! beside                                        4        the moves between states that do not accept
//! avoid                                         x        on a cycle of such moves
//! joined                                x       x        in a component with one that avoids
//! accept more   x       x       x       x                accepting, or not joined
//! ```
#![tactic(auto)]

pub mod laws;
mod making;
mod parts;

pub use making::accept_more;
