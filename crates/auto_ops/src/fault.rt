//! Why an operation gives no automaton.

use auto_core::Memory;
use std::alloc::{AllocError, AllocFailed};
use thiserror::Error;

/// Why an operation gives no automaton.
#[derive(Debug, Drop, Error)]
pub enum OpFault {
    /// The result has more than 2,048 states, more than 65,536 transitions or more than 256 labels.
    #[error("the result is too large")]
    TooLarge,
    /// The machine refused memory.
    #[error("out of memory")]
    Memory,
}

impl From<Memory> for OpFault {
    ghost use Rattle.std.specs.Prelude.{◌≡◌};
    ghost use Rattle.auto_ops.specs.declared.fault.OpFault.{OpFault};

    ghost from_gives = { λ _ e. e ≡ OpFault.Memory };

    fn from(_refused: Memory) -> OpFault {
        OpFault::Memory
    }
}

impl From<AllocError> for OpFault {
    ghost use Rattle.std.specs.Prelude.{◌≡◌};
    ghost use Rattle.auto_ops.specs.declared.fault.OpFault.{OpFault};

    ghost from_gives = { λ _ e. e ≡ OpFault.Memory };

    fn from(_refused: AllocError) -> OpFault {
        OpFault::Memory
    }
}

impl<T: Drop> From<AllocFailed<T>> for OpFault {
    ghost use Rattle.std.specs.Prelude.{◌≡◌};
    ghost use Rattle.auto_ops.specs.declared.fault.OpFault.{OpFault};

    ghost from_gives = { λ _ e. e ≡ OpFault.Memory };

    fn from(_refused: AllocFailed<T>) -> OpFault {
        OpFault::Memory
    }
}
