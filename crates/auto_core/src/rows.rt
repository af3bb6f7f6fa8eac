//! Rows of bits in words of 64, and tables of such rows.

ghost use Rattle.std.specs.Prelude.{◌≡◌, ◌+◌, ◌*◌, ◌/◌, ◌^◌, ◌<◌, ◌≤◌, ◌||◌, ◌⊎◌, ℕ, true, false, length, slice_index, bit_or, IfSome, IfNone, take, drop};
ghost use Rattle.auto_core.specs.Rows.{bit_of, cell_of, AreWordsOred, HasBit};

use std::simd::prelude::*;

/// The number of words that have room for `count` bits.
pub fn words_for(count: u32) -> usize
    ensures { result ≡ (count + 63) / 64 }
{
    (count as usize + 63) / 64
}

/// Tells whether the row has the bit.
pub fn has_bit(row: &[u64], bit: usize) -> bool
    requires { bit / 64 < length row.now }
    ensures { result ≡ bit_of row.now bit }
{
    (row[bit / 64] >> (bit % 64)) & 1 == 1
}

/// Sets the bit, and leaves the others.
pub fn set_bit(row: &mut [u64], bit: usize)
    requires { bit / 64 < length row.old }
    ensures here { bit_of row.new bit ≡ true }
    ensures others { (i : ℕ) → ¬ (i ≡ bit) → bit_of row.new i ≡ bit_of row.old i }
{
    row[bit / 64] |= 1 << (bit % 64);
}

/// Clears the bit, and leaves the others.
pub fn clear_bit(row: &mut [u64], bit: usize)
    requires { bit / 64 < length row.old }
    ensures here { bit_of row.new bit ≡ false }
    ensures others { (i : ℕ) → ¬ (i ≡ bit) → bit_of row.new i ≡ bit_of row.old i }
{
    row[bit / 64] &= !(1 << (bit % 64));
}

/// Clears the row.
pub fn clear_row(row: &mut [u64])
    ensures { (i : ℕ) → bit_of row.new i ≡ false }
{
    for i in 0..row.len() {
        row[i] = 0;
    }
}

/// Makes each of the first words the 'or' of it and the word of the other row, by lanes of four,
/// and tells how many words these are: all but fewer than four.
fn or_lanes(into: &mut [u64], from: &[u64]) -> usize
    requires { length into.old ≡ length from.now }
    ensures most { result ≤ length into.old }
    ensures first { (k : ℕ) → k < result
        → slice_index into.new k ≡ bit_or (slice_index into.old k) (slice_index from.now k) }
    ensures rest { (k : ℕ) → result ≤ k → slice_index into.new k ≡ slice_index into.old k }
{
    let mut at = 0;
    'lanes: while into.len() - at >= 4 {
        let lanes = u64x4::from_slice(&into[at..]) | u64x4::from_slice(&from[at..]);
        lanes.copy_to_slice(&mut into[at..]);
        at += 4;
    }
    at
}

/// Makes each word the 'or' of it and the word of the other row, which has the same length.
pub fn or_into(into: &mut [u64], from: &[u64])
    requires { length into.old ≡ length from.now }
    ensures { AreWordsOred into.old from.now into.new }
{
    for i in or_lanes(into, from)..into.len() {
        into[i] |= from[i];
    }
}

/// Sets each bit that the other row of the same length has, word by word: in short rows lanes cost
/// more than they save.
pub fn add_bits(into: &mut [u64], from: &[u64])
    requires { length into.old ≡ length from.now }
    ensures { (i : ℕ) → bit_of into.new i ≡ (bit_of into.old i || bit_of from.now i) }
{
    for i in 0..into.len() {
        into[i] |= from[i];
    }
}

/// The row of the table at this number; a row has `width` words.
pub fn row_at(table: &[u64], width: usize, at: usize) -> &[u64]
    requires { at * width + width ≤ length table.now }
    ensures len { length result.now ≡ width }
    ensures bits { (q : ℕ) → q < width * 64 → bit_of result.now q ≡ cell_of table.now width at q }
    ensures outside { (q : ℕ) → width * 64 ≤ q → bit_of result.now q ≡ false }
{
    &table[at * width..at * width + width]
}

/// The first bit that the first row has and the second, of the same length, has not.
pub fn first_missing(row: &[u64], other: &[u64]) -> Option<usize>
    requires equal { length row.now ≡ length other.now }
    requires few { length row.now < 2 ^ 32 }
    ensures found { IfSome
        result (λ i. HasBit row.now i × (bit_of other.now i ≡ false) × (i < length row.now * 64)) }
    ensures first { IfSome result (λ i. (j : ℕ) → j < i → HasBit row.now j → HasBit other.now j) }
    ensures none { IfNone result ((i : ℕ) → HasBit row.now i → HasBit other.now i) }
{
    for i in 0..row.len() {
        let missing = row[i] & !other[i];
        if missing != 0 {
            return Some(i * 64 + missing.trailing_zeros() as usize);
        }
    }
    None
}

/// Tells whether the table relates row `p` to column `q`; a row has `width` words.
pub fn has_cell(table: &[u64], width: usize, p: usize, q: usize) -> bool
    requires row { p * width + width ≤ length table.now }
    requires column { q < width * 64 }
    ensures { result ≡ cell_of table.now width p q }
{
    (table[p * width + q / 64] >> (q % 64)) & 1 == 1
}

/// Lets the table relate row `p` to column `q`, and changes nothing else.
pub fn set_cell(table: &mut [u64], width: usize, p: usize, q: usize)
    requires row { p * width + width ≤ length table.old }
    requires column { q < width * 64 }
    ensures here { cell_of table.new width p q ≡ true }
    ensures others { (r s : ℕ) → s < width * 64 → ¬ ((r ≡ p) × (s ≡ q))
        → cell_of table.new width r s ≡ cell_of table.old width r s }
{
    table[p * width + q / 64] |= 1 << (q % 64);
}

/// Lets the table no longer relate row `p` to column `q`, and changes nothing else.
pub fn clear_cell(table: &mut [u64], width: usize, p: usize, q: usize)
    requires row { p * width + width ≤ length table.old }
    requires column { q < width * 64 }
    ensures here { cell_of table.new width p q ≡ false }
    ensures others { (r s : ℕ) → s < width * 64 → ¬ ((r ≡ p) × (s ≡ q))
        → cell_of table.new width r s ≡ cell_of table.old width r s }
{
    table[p * width + q / 64] &= !(1 << (q % 64));
}

/// Adds the bits of `from`, which has `width` words, to row `p` of the table, and leaves the other
/// rows.
pub fn or_row(table: &mut [u64], width: usize, p: usize, from: &[u64])
    requires row { p * width + width ≤ length table.old }
    requires equal { length from.now ≡ width }
    ensures here { (q : ℕ) → q < width * 64
        → cell_of table.new width p q ≡ (cell_of table.old width p q || bit_of from.now q) }
    ensures others { (r q : ℕ) → q < width * 64 → ¬ (r ≡ p)
        → cell_of table.new width r q ≡ cell_of table.old width r q }
    ensures rest { (k : ℕ) → (k < p * width) ⊎ (p * width + width ≤ k)
        → slice_index table.new k ≡ slice_index table.old k }
{
    for j in 0..width {
        table[p * width + j] |= from[j];
    }
}
