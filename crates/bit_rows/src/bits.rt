//! Walks along the bits of a row.

ghost use Rattle.std.specs.Prelude.{◌≡◌, ℕ, ◌+◌, ◌*◌, ◌/◌, ◌^◌, ◌<◌, ◌≤◌, ◌↔◌, ◌⊎◌, true, false, length, slice_index, IfSome, IfNone, IsTrue};
ghost use Rattle.auto_core.specs.Rows.{bit_of, HasBit};
ghost use Rattle.bit_rows.specs.Walks.{IsNextBit};

use auto_core::rows;

/// Sets the bits below `count`, and leaves the others.
pub fn mark_below(row: &mut [u64], count: u32)
    requires { length row.old ≡ (count + 63) / 64 }
    ensures { (i : ℕ) → HasBit row.new i ↔ ((i < count) ⊎ HasBit row.old i) }
{
    for i in 0..count as usize {
        rows::set_bit(row, i);
    }
}

/// Tells whether four words of the row, from this one on, have no bit.
fn has_no_bit_in_four(row: &[u64], at: usize) -> bool
    requires { at + 4 ≤ length row.now }
    ensures { result ≡ true → (k : ℕ) → at ≤ k → k < at + 4 → slice_index row.now k ≡ 0 }
{
    (row[at] | row[at + 1] | row[at + 2] | row[at + 3]) == 0
}

/// Passes over words that have no bit, four at a time, from this one on.
fn pass_over(row: &[u64], from: usize) -> usize
    requires { from ≤ length row.now }
    ensures onward { from ≤ result }
    ensures inside { result ≤ length row.now }
    ensures none { (k : ℕ) → from ≤ k → k < result → slice_index row.now k ≡ 0 }
{
    let mut at = from;
    'fours: while row.len() - at >= 4 {
        if !has_no_bit_in_four(row, at) {
            return at;
        }
        at += 4;
    }
    at
}

/// The first bit of the row from this place on.
pub fn next_bit(row: &[u64], from: usize) -> Option<usize>
    requires few { length row.now < 2 ^ 32 }
    ensures found { IfSome result (IsNextBit row.now from) }
    ensures none { IfNone result ((i : ℕ) → from ≤ i → bit_of row.now i ≡ false) }
{
    let first = from / 64;
    if first >= row.len() {
        return None;
    }
    let rest = row[first] >> (from % 64);
    if rest != 0 {
        return Some(from + rest.trailing_zeros() as usize);
    }
    for at in pass_over(row, first + 1)..row.len() {
        if row[at] != 0 {
            return Some(at * 64 + row[at].trailing_zeros() as usize);
        }
    }
    None
}

/// Tells whether the row has no bit but this one.
pub fn has_no_other(row: &[u64], own: usize) -> bool
    requires few { length row.now < 2 ^ 32 }
    ensures { IsTrue result ↔ ((q : ℕ) → HasBit row.now q → q ≡ own) }
{
    match next_bit(row, 0) {
        None => true,
        Some(first) => first == own && next_bit(row, own + 1).is_none(),
    }
}
