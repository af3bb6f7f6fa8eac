//! What can be wrong with a line of a text.

ghost use Rattle.std.specs.Prelude.{◌≡◌};
ghost use Rattle.cert_line.specs.KindNames.{text_kind_name};

use auto_core::Memory;

/// What is wrong with a line of a certificate's text.
#[derive(Clone, Copy, Debug, PartialEq, Eq)]
pub enum TextKind {
    /// The first line is none of the twelve.
    Header,
    /// A token in a number's place is not a number.
    Number,
    /// No line of this shape may stand here.
    Shape,
    /// A list does not ascend, or the line names another number than the one that is due.
    Order,
    /// The bytes end before the last line.
    Truncated,
    /// A byte follows the last line.
    Trailing,
}

impl TextKind {
    /// The kind's name.
    pub fn name(self) -> &'static str
        ensures { result.now ≡ text_kind_name self }
    {
        match self {
            TextKind::Header => "Header",
            TextKind::Number => "Number",
            TextKind::Shape => "Shape",
            TextKind::Order => "Order",
            TextKind::Truncated => "Truncated",
            TextKind::Trailing => "Trailing",
        }
    }
}

/// Why a line was not read.
#[derive(Debug, Drop)]
pub enum LineFault {
    /// It may not stand here.
    Text(TextKind),
    /// The machine refused memory.
    Memory,
}

impl From<Memory> for LineFault {
    ghost use Rattle.std.specs.Prelude.{◌≡◌};
    ghost use Rattle.cert_line.specs.declared.faults.LineFault.{LineFault};

    ghost from_gives = { λ _ e. e ≡ LineFault.Memory };

    fn from(_refused: Memory) -> LineFault {
        LineFault::Memory
    }
}

impl From<TextKind> for LineFault {
    ghost use Rattle.std.specs.Prelude.{◌≡◌};
    ghost use Rattle.cert_line.specs.declared.faults.LineFault.{LineFault};

    ghost from_gives = { λ kind e. e ≡ LineFault.Text kind };

    fn from(kind: TextKind) -> LineFault {
        LineFault::Text(kind)
    }
}
