//! How large a game may be.

/// The most triples, each with one further letter, of a delayed game with more than one announced
/// letter.
pub const MOST_TRIPLES_WITH_A_LETTER: u64 = 4_000_000;
