//! Why a cross relation is refused.

use auto_core::Memory;
use thiserror::Error;

/// The first broken rule of a cross relation, and the item that breaks it.
#[derive(Clone, Copy, Debug, PartialEq, Eq)]
pub struct CrossRefusal {
    /// The rule: 1, 19 or 20.
    pub rule: u32,
    /// The item: 0 for the sizes, 1 for the lookahead, 2 for the pairs.
    pub item: u32,
}

/// Why a cross relation was not found to show the inclusion.
#[derive(Debug, Drop, Error)]
pub enum CheckCrossFault {
    /// A rule is broken.
    #[error("item {}: rule {}", .0.item, .0.rule)]
    Refused(CrossRefusal),
    /// The machine refused memory.
    #[error("out of memory")]
    Memory,
}

impl From<Memory> for CheckCrossFault {
    ghost use Rattle.std.specs.Prelude.{◌≡◌};
    ghost use Rattle.cross_sim.specs.declared.faults.CheckCrossFault.{CheckCrossFault};

    ghost from_gives = { λ _ e. e ≡ CheckCrossFault.Memory };

    fn from(_refused: Memory) -> CheckCrossFault {
        CheckCrossFault::Memory
    }
}
