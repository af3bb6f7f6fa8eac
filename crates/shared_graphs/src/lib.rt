//! Graphs of words, each kept once with a number, with what letters lead to from them and what was
//! told of two, remembered.
#![tactic(auto)]

mod coverings;
mod glimpses;
mod graph_blocks;
mod graph_pairs;
mod graphs;
mod looping;
mod memo;

pub use coverings::{Coverings, subsumes};
pub use glimpses::Glimpse;
pub use graph_blocks::GraphBlocks;
pub use graph_pairs::GraphPairs;
pub use graphs::{Graphs, Link};
pub use looping::marked_row;
pub use memo::{Answer, Memo, Noted};
