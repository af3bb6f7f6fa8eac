//! Rows that are the same, compared by lanes of four words.

ghost use Rattle.std.specs.Prelude.{◌≡◌, ◌+◌, ◌<◌, ◌≤◌, ◌↔◌, ℕ, true, length, slice_index, IsTrue};

use std::simd::prelude::*;

/// Tells whether four words of both rows, from this one on, are the same.
fn are_four_equal(row: &[u64], other: &[u64], at: usize) -> bool
    requires row { at + 4 ≤ length row.now }
    requires other { at + 4 ≤ length other.now }
    ensures { result ≡ true → (k : ℕ) → at ≤ k → k < at + 4
        → slice_index row.now k ≡ slice_index other.now k }
{
    let differing = u64x4::from_slice(&row[at..]) ^ u64x4::from_slice(&other[at..]);
    differing.reduce_or() == 0
}

/// Passes over words that are the same in both rows, four at a time.
fn pass_equal(row: &[u64], other: &[u64]) -> usize
    requires { length row.now ≡ length other.now }
    ensures most { result ≤ length row.now }
    ensures equal { (k : ℕ) → k < result → slice_index row.now k ≡ slice_index other.now k }
{
    let mut at = 0;
    'lanes: while row.len() - at >= 4 {
        if !are_four_equal(row, other, at) {
            return at;
        }
        at += 4;
    }
    at
}

/// Tells whether both rows are the same.
pub fn are_equal(row: &[u64], other: &[u64]) -> bool
    ensures { IsTrue result ↔ row.now ≡ other.now }
{
    if row.len() != other.len() {
        return false;
    }
    for i in pass_equal(row, other)..row.len() {
        if row[i] != other[i] {
            return false;
        }
    }
    true
}
