//! One move of a player.

/// A move: its letter and the state that it leads to.
#[derive(Clone, Copy, Debug, Default, PartialEq, Eq)]
pub struct Move {
    /// Its letter.
    pub label: u32,
    /// The state that it leads to.
    pub to: u32,
}
