//! Why a list of questions is not read.

use auto_core::Memory;
use thiserror::Error;

/// Why a list of questions is not read.
#[derive(Debug, Drop, Error)]
pub enum ListFault {
    /// The first bad line, numbered from 1.
    #[error("line {0}")]
    Line(u32),
    /// The machine refused memory.
    #[error("out of memory")]
    Memory,
}

impl From<Memory> for ListFault {
    ghost use Rattle.std.specs.Prelude.{◌≡◌};
    ghost use Rattle.equal_batch.specs.declared.fault.ListFault.{ListFault};

    ghost from_gives = { λ _ e. e ≡ ListFault.Memory };

    fn from(_refused: Memory) -> ListFault {
        ListFault::Memory
    }
}
