//! The two directions in which moves are followed.

/// How moves are followed.
#[derive(Clone, Copy)]
pub enum Direction {
    /// From source to target.
    Forward,
    /// From target to source.
    Backward,
}
