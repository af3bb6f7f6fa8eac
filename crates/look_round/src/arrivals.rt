//! From which states a move leads to a state, as rows of bits.
//!
//! ```text
//!              letter a                      letter b
//! row r   |  p such that p --a--> r  |  p such that p --b--> r  |  ..       `width` words a letter
//! ```
//!
//! The row of answers of t is the 'or' of the rows of the states that t is related to. These rows
//! are laid out as it is, so that it is made by words.

ghost use Rattle.std.specs.Prelude.{◌≡◌, ◌*◌, ◌^◌, ◌<◌, vec_len};

/// A row for each of the first `kept` states, laid out as the rows of answers are.
#[derive(Drop)]
pub(crate) struct Arrivals {
    pub(crate) labels: u32,
    pub(crate) width: usize,
    pub(crate) kept: u32,
    pub(crate) table: Vec<u64>,
    ghost few: { labels * width < 2 ^ 32 },
    ghost rows: { vec_len table ≡ kept * (labels * width) },
}
