//! Rows of a table written, cleared or narrowed at once.

ghost use Rattle.std.specs.Prelude.{◌≡◌, ℕ, ◌+◌, ◌*◌, ◌<◌, ◌≤◌, ◌⊎◌, ◌&&◌, false, length, slice_index};
ghost use Rattle.auto_core.specs.Rows.{bit_of, cell_of};

/// Clears in row `p` of the table each bit that the other row, which has `width` words, has not,
/// and leaves the other rows.
pub fn and_row(table: &mut [u64], width: usize, p: usize, with: &[u64])
    requires row { p * width + width ≤ length table.old }
    requires equal { length with.now ≡ width }
    ensures here { (q : ℕ) → q < width * 64
        → cell_of table.new width p q ≡ (cell_of table.old width p q && bit_of with.now q) }
    ensures others { (r q : ℕ) → q < width * 64 → ¬ (r ≡ p)
        → cell_of table.new width r q ≡ cell_of table.old width r q }
    ensures rest { (k : ℕ) → (k < p * width) ⊎ (p * width + width ≤ k)
        → slice_index table.new k ≡ slice_index table.old k }
{
    for j in 0..width {
        table[p * width + j] &= with[j];
    }
}

/// Writes the bits of `from`, which has `width` words, into row `p` of the table, and leaves the
/// other rows.
pub fn write_row(table: &mut [u64], width: usize, p: usize, from: &[u64])
    requires row { p * width + width ≤ length table.old }
    requires equal { length from.now ≡ width }
    ensures here { (q : ℕ) → q < width * 64 → cell_of table.new width p q ≡ bit_of from.now q }
    ensures others { (r q : ℕ) → q < width * 64 → ¬ (r ≡ p)
        → cell_of table.new width r q ≡ cell_of table.old width r q }
    ensures rest { (k : ℕ) → (k < p * width) ⊎ (p * width + width ≤ k)
        → slice_index table.new k ≡ slice_index table.old k }
{
    for j in 0..width {
        table[p * width + j] = from[j];
    }
}

/// Clears row `p` of the table, and leaves the other rows.
pub fn clear_table_row(table: &mut [u64], width: usize, p: usize)
    requires row { p * width + width ≤ length table.old }
    ensures here { (q : ℕ) → q < width * 64 → cell_of table.new width p q ≡ false }
    ensures others { (r q : ℕ) → q < width * 64 → ¬ (r ≡ p)
        → cell_of table.new width r q ≡ cell_of table.old width r q }
    ensures rest { (k : ℕ) → (k < p * width) ⊎ (p * width + width ≤ k)
        → slice_index table.new k ≡ slice_index table.old k }
{
    for j in 0..width {
        table[p * width + j] = 0;
    }
}
