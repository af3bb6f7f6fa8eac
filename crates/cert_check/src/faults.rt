//! What a check answers.

use auto_core::{Lasso, Word};

/// What a valid certificate shows.
#[derive(Debug, Drop)]
pub enum Verdict {
    /// The second automaton accepts all that the first does.
    Included,
    /// The first accepts the lasso and the second does not.
    Apart(Lasso),
    /// The first accepts the word and the second does not.
    ApartWord(Word),
    /// A list of one element more than this limit.
    Listed(u32),
}
