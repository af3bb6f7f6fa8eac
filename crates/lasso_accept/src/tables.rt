//! Tables of bits in which nothing is set.

ghost use Rattle.std.specs.Prelude.{◌≡◌, ℕ, false, IfOk, vec_len};
ghost use Rattle.auto_core.specs.Rows.{bit_of};

use auto_core::Memory;
use std::alloc::Global;

/// So many words without a bit.
pub fn clear_table(alloc: Global, size: usize) -> Result<Vec<u64>, Memory>
    ensures { IfOk result (λ v. (vec_len v ≡ size) × ((i : ℕ) → bit_of v.items i ≡ false)) }
{
    Ok(vec![in alloc; 0; size]?)
}
