//! The factors of the product.

use auto_core::Auto;

/// An automaton with the class of each of its letters, and the lasso of classes that it is to read.
#[derive(Clone, Copy)]
pub(crate) struct Factors<'a> {
    /// The automaton.
    pub automaton: &'a Auto,
    /// The class of each of its letters.
    pub classes: &'a [u32],
    /// The classes of the lasso's prefix.
    pub prefix: &'a [u32],
    /// The classes of its loop.
    pub turn: &'a [u32],
}
