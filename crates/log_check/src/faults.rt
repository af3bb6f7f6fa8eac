//! How a test of a certificate's items fails.

use auto_core::Memory;
use thiserror::Error;

/// The first broken rule of a certificate, and the item that breaks it.
#[derive(Clone, Copy, Debug, PartialEq, Eq)]
pub struct Refusal {
    /// The rule, from 1.
    pub rule: u32,
    /// The item: 0 for the sizes, then the items of the file in order.
    pub item: u32,
}

/// Why a certificate gave no verdict.
#[derive(Debug, Drop, Error)]
pub enum CheckFault {
    /// A rule is broken.
    #[error("item {}: rule {}", .0.item, .0.rule)]
    Refused(Refusal),
    /// The machine refused memory.
    #[error("out of memory")]
    Memory,
}

impl From<Memory> for CheckFault {
    ghost use Rattle.std.specs.Prelude.{◌≡◌};
    ghost use Rattle.log_check.specs.declared.faults.CheckFault.{CheckFault};

    ghost from_gives = { λ _ e. e ≡ CheckFault.Memory };

    fn from(_refused: Memory) -> CheckFault {
        CheckFault::Memory
    }
}
