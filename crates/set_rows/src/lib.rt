//! Sets of states as rows of bits.
#![tactic(auto)]

mod comparing;
mod moving;
mod reaching;

pub use bit_rows::subset;
pub use comparing::{covers, has_accepting, write_below};
pub use moving::{write_after, write_one};
pub use reaching::reached;
