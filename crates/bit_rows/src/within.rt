//! A row within another, looked at by lanes of four words.

ghost use Rattle.std.specs.Prelude.{◌≡◌, ◌+◌, ◌*◌, ◌<◌, ◌≤◌, ◌↔◌, ℕ, true, length, IsTrue};
ghost use Rattle.auto_core.specs.Rows.{HasBit};

use std::simd::prelude::*;

/// Tells whether the other row has each bit of four words of the row, from this one on.
fn are_four_within(row: &[u64], other: &[u64], at: usize) -> bool
    requires row { at + 4 ≤ length row.now }
    requires other { at + 4 ≤ length other.now }
    ensures { result ≡ true → (i : ℕ) → at * 64 ≤ i → i < (at + 4) * 64 → HasBit row.now i
        → HasBit other.now i }
{
    let missing = u64x4::from_slice(&row[at..]) & !u64x4::from_slice(&other[at..]);
    missing.reduce_or() == 0
}

/// Passes over words whose bits the other row has, four at a time.
fn pass_within(row: &[u64], other: &[u64]) -> usize
    requires { length row.now ≡ length other.now }
    ensures most { result ≤ length row.now }
    ensures within { (i : ℕ) → i < result * 64 → HasBit row.now i → HasBit other.now i }
{
    let mut at = 0;
    'lanes: while row.len() - at >= 4 {
        if !are_four_within(row, other, at) {
            return at;
        }
        at += 4;
    }
    at
}

/// Tells whether each bit of the row stands in the other row of the same length.
pub fn subset(row: &[u64], other: &[u64]) -> bool
    requires { length row.now ≡ length other.now }
    ensures { IsTrue result ↔ ((i : ℕ) → HasBit row.now i → HasBit other.now i) }
{
    for i in pass_within(row, other)..row.len() {
        if row[i] & !other[i] != 0 {
            return false;
        }
    }
    true
}
