//! The small types that the crates share.

use crate::listing::List;
use std::alloc::{AllocError, AllocFailed};

/// The machine refused memory.
#[derive(Clone, Copy, Debug, PartialEq, Eq)]
pub struct Memory;

impl From<AllocError> for Memory {
    fn from(_refused: AllocError) -> Memory {
        Memory
    }
}

impl<T: Drop> From<AllocFailed<T>> for Memory {
    fn from(_refused: AllocFailed<T>) -> Memory {
        Memory
    }
}

/// What an automaton is asked: lassos or finite words.
#[derive(Clone, Copy, Debug, PartialEq, Eq)]
pub enum Mode {
    /// Infinite words, as lassos.
    Buchi,
    /// Finite words.
    Finite,
}

/// A transition; states and labels are numbers from 0.
#[derive(Clone, Copy, Debug, PartialEq, Eq, PartialOrd, Ord)]
pub struct Trans {
    /// The state that it leaves.
    pub source: u32,
    /// Its letter.
    pub label: u32,
    /// The state that it leads to.
    pub target: u32,
}

/// A word: a list of labels.
pub type Word = List<u32>;

/// The infinite word that is the prefix and then the loop again and again.
#[derive(Debug, Drop)]
pub struct Lasso {
    /// What comes once.
    pub prefix: Word,
    /// The loop.
    pub turn: Word,
}

/// Where an element of a search comes from.
#[derive(Clone, Copy, Debug, PartialEq, Eq)]
pub enum Origin {
    /// The empty word.
    Start,
    /// The one letter of the transition with this number.
    Base(u32),
    /// The element with the first number, extended by the transition with the second.
    Next(u32, u32),
}

/// A range of transition numbers, from `begin` up to `end`, which is not in it.
#[derive(Clone, Copy, Debug, PartialEq, Eq)]
pub struct Span {
    /// The first number.
    pub begin: u32,
    /// One past the last number.
    pub end: u32,
}
