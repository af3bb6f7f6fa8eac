//! Rows with a bit in common.

ghost use Rattle.std.specs.Prelude.{◌≡◌, ◌↔◌, ℕ, length, IsTrue};
ghost use Rattle.auto_core.specs.Rows.{HasBit};

/// Tells whether the rows, of the same length, have a bit in common.
pub fn meets(row: &[u64], other: &[u64]) -> bool
    requires { length row.now ≡ length other.now }
    ensures { IsTrue result ↔ ((q : ℕ) × HasBit row.now q × HasBit other.now q) }
{
    for i in 0..row.len() {
        if row[i] & other[i] != 0 {
            return true;
        }
    }
    false
}
