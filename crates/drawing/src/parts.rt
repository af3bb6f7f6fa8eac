//! What a drill is drawn from.

/// A drill: the seed of its draws, and how large its automata are.
#[derive(Clone, Copy, Debug, PartialEq, Eq)]
pub struct Drill {
    /// The seed of the generator.
    pub seed: u32,
    /// The states of each automaton, from 2 to 512.
    pub states: u32,
    /// The labels of both, from 1 to 26.
    pub labels: u32,
}
