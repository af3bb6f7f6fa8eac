//! What can be wrong with a text.

use auto_core::Memory;
use cert_line::TextKind;
use std::alloc::AllocError;
use thiserror::Error;

/// The first fault of a certificate's text.
#[derive(Clone, Copy, Debug, PartialEq, Eq)]
pub struct TextFault {
    /// The line, from 1.
    pub line: u32,
    /// What is wrong with it.
    pub kind: TextKind,
}

/// Why a certificate was not read.
#[derive(Debug, Drop, Error)]
pub enum CertReadFault {
    /// The bytes are no certificate's text.
    #[error("the bytes are not the text of a certificate")]
    Text(TextFault),
    /// The machine refused memory.
    #[error("out of memory")]
    Memory,
}

impl From<Memory> for CertReadFault {
    ghost use Rattle.std.specs.Prelude.{◌≡◌};
    ghost use Rattle.cert_text.specs.declared.faults.CertReadFault.{CertReadFault};

    ghost from_gives = { λ _ e. e ≡ CertReadFault.Memory };

    fn from(_refused: Memory) -> CertReadFault {
        CertReadFault::Memory
    }
}

impl From<AllocError> for CertReadFault {
    ghost use Rattle.std.specs.Prelude.{◌≡◌};
    ghost use Rattle.cert_text.specs.declared.faults.CertReadFault.{CertReadFault};

    ghost from_gives = { λ _ e. e ≡ CertReadFault.Memory };

    fn from(_refused: AllocError) -> CertReadFault {
        CertReadFault::Memory
    }
}
