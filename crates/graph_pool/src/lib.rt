//! A pool of blocks of words, each under a handle. The blocks stand in chunks that never move.
#![tactic(auto)]

mod pool;
mod segments;
mod store;

pub use pool::{Handle, Pool};
