//! What a reader has read of a certificate's parts.

ghost use Rattle.std.specs.Prelude.{◌≡◌, ◌∷◌, [], ◌++◌, MatchResult};
ghost use Rattle.cert_line.specs.declared.faults.LineFault.TheVariants as fault;

use auto_core::{List, Memory, Origin};
use cert_line::LineFault;
use cert_value::{Element, RelBlock, StepLine};

/// What comes of a line: there is more to read, or the part is whole.
#[derive(Drop)]
pub(crate) enum PartSoFar<S: Drop, X: Drop> {
    /// There is more to read.
    More(S),
    /// The part is whole.
    Whole(X),
}

/// What a yes has after its logs.
#[derive(Debug, Drop)]
pub struct Closed {
    /// The order.
    pub order: RelBlock,
    /// The elements.
    pub elements: List<Element>,
    /// The cover of the starts.
    pub cover: List<u32>,
    /// The extensions.
    pub steps: List<StepLine>,
}

/// What a list has after its logs.
#[derive(Drop)]
pub(crate) struct ListPart {
    /// The limit.
    pub(crate) limit: u32,
    /// The elements.
    pub(crate) elements: List<Origin>,
}

/// The list with the item at its end.
pub(crate) fn pushed<T: Drop>(list: List<T>, item: T) -> Result<List<T>, LineFault>
    ensures { MatchResult result (λ longer. longer ≡ list ++ item ∷ []) (λ e. e ≡ fault.Memory) }
{
    let mut list = list;
    match list.push(item) {
        Ok(()) => Ok(list),
        Err(Memory) => Err(LineFault::Memory),
    }
}
