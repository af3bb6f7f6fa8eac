//! Reading a whole text.

ghost use Rattle.std.specs.Prelude.{◌≡◌, ◌^◌, ◌≤◌, ◌⊎◌, Some, Err, length, IfOk};
ghost use Rattle.ba_format.specs.Faults.{fault_of};
ghost use Rattle.ba_format.specs.Reading.{Reads, IsWithinLimits};

use crate::parts::{BaFault, Limits, Named, ReadFault};
use crate::pieces::Reader;
use std::alloc::Global;

/// Reads the automaton of a `.ba` text of at most 16 MiB, with the names of its states and the
/// texts of its labels, or tells the first fault that the text has within the limits.
pub fn read(alloc: Global, bytes: &[u8], limits: &Limits) -> Result<Named, ReadFault>
    requires { length bytes.now ≤ 2 ^ 24 }
    ensures named { IfOk result (Reads bytes.now limits.now) }
    ensures within { IfOk result (IsWithinLimits limits.now) }
    ensures fault { (fault : BaFault) → result ≡ Err (ReadFault.Ba fault)
        → fault_of bytes.now limits.now ≡ Some fault }
    ensures found { (fault : BaFault) → fault_of bytes.now limits.now ≡ Some fault
        → (result ≡ Err (ReadFault.Ba fault)) ⊎ (result ≡ Err ReadFault.Memory) }
{
    let mut reader = Reader::empty(alloc, limits);
    match reader.feed(bytes) {
        Ok(()) => reader.finish(),
        Err(_refused) => {
            drop(reader);
            Err(ReadFault::Memory)
        }
    }
}
