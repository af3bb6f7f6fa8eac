//! The types of reading and joining.

ghost use Rattle.std.specs.Prelude.{◌≡◌};
ghost use Rattle.ba_format.specs.KindNames.{kind_name};

use crate::texts::Texts;
use auto_core::{Auto, Memory};
use std::alloc::AllocError;
use thiserror::Error;

/// The most states, labels and different transitions that a text may bring.
#[derive(Clone, Copy, Debug, PartialEq, Eq)]
pub struct Limits {
    /// The most states.
    pub states: u32,
    /// The most labels.
    pub labels: u32,
    /// The most different transitions.
    pub transitions: u32,
}

/// What is wrong with a text. The least kind of the first faulty line is named.
#[derive(Clone, Copy, Debug, PartialEq, Eq)]
pub enum BaKind {
    /// The text has no line that isn't blank; the line number is 0.
    Empty,
    /// The trimmed line has 0x7F or a byte below 0x20 other than a tab.
    BadByte,
    /// A transition line without exactly one comma and one `->` after it, or a state line with a
    /// `->`.
    Shape,
    /// A token of a transition line is empty.
    EmptyToken,
    /// A token has more than 255 bytes.
    TokenLong,
    /// The first transition line stands after two or more state lines.
    TwoInitial,
    /// The line brings a state past the limit.
    TooManyStates,
    /// The line brings a label past the limit.
    TooManyLabels,
    /// The line brings a different transition past the limit.
    TooManyTransitions,
}

impl BaKind {
    /// The kind's name.
    pub fn name(self) -> &'static str
        ensures { result.now ≡ kind_name self }
    {
        match self {
            BaKind::Empty => "Empty",
            BaKind::BadByte => "BadByte",
            BaKind::Shape => "Shape",
            BaKind::EmptyToken => "EmptyToken",
            BaKind::TokenLong => "TokenLong",
            BaKind::TwoInitial => "TwoInitial",
            BaKind::TooManyStates => "TooManyStates",
            BaKind::TooManyLabels => "TooManyLabels",
            BaKind::TooManyTransitions => "TooManyTransitions",
        }
    }
}

/// The fault of a text: the first faulty line, numbered from 1, and the least kind of fault that it
/// has.
#[derive(Clone, Copy, Debug, PartialEq, Eq)]
pub struct BaFault {
    /// The line's number, blank lines counted too; 0 for an empty text.
    pub line: u32,
    /// The kind.
    pub kind: BaKind,
}

/// Why a text was not read.
#[derive(Debug, Drop, Error)]
pub enum ReadFault {
    /// The text has a fault.
    #[error("line {}: {:?}", .0.line, .0.kind)]
    Ba(BaFault),
    /// The machine refused memory.
    #[error("out of memory")]
    Memory,
}

impl From<Memory> for ReadFault {
    ghost use Rattle.std.specs.Prelude.{◌≡◌};
    ghost use Rattle.ba_format.specs.declared.parts.ReadFault.{ReadFault};

    ghost from_gives = { λ _ e. e ≡ ReadFault.Memory };

    fn from(_refused: Memory) -> ReadFault {
        ReadFault::Memory
    }
}

impl From<AllocError> for ReadFault {
    ghost use Rattle.std.specs.Prelude.{◌≡◌};
    ghost use Rattle.ba_format.specs.declared.parts.ReadFault.{ReadFault};

    ghost from_gives = { λ _ e. e ≡ ReadFault.Memory };

    fn from(_refused: AllocError) -> ReadFault {
        ReadFault::Memory
    }
}

/// A read automaton: state i has name i, label a has text a.
#[derive(Debug, Drop)]
pub struct Named {
    /// The automaton.
    pub auto: Auto,
    /// The names of its states.
    pub names: Texts,
    /// The texts of its labels.
    pub labels: Texts,
}

/// Two automata over the same labels.
#[derive(Debug, Drop)]
pub struct Joined {
    /// The first automaton.
    pub first: Auto,
    /// The second automaton.
    pub second: Auto,
    /// The texts of the labels of both.
    pub labels: Texts,
}
