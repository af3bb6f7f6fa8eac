//! What two answers can say together.

/// What an answer to whether a first automaton is included in a second, and an answer to the
/// converse, say together.
#[derive(Clone, Copy, Debug, PartialEq, Eq)]
pub enum Both {
    /// Each is included in the other.
    Equal,
    /// The first is not included in the second.
    FirstApart,
    /// The second is not included in the first.
    SecondApart,
    /// A limit was met, and neither is known to be not included.
    Limit,
}
