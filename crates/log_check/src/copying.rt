//! Copies of lists of numbers.

ghost use Rattle.std.specs.Prelude.{◌≡◌, IfOk};

use auto_core::{List, Memory};
use std::alloc::Global;

/// The same numbers once more.
pub fn copied_numbers(alloc: Global, numbers: &[u32]) -> Result<List<u32>, Memory>
    ensures { IfOk result (λ copy. copy ≡ numbers.now) }
{
    let mut copy = List::new(alloc);
    for number in numbers {
        copy.push(*number)?;
    }
    Ok(copy)
}
