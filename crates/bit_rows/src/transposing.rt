//! Tables of bits transposed block by block.

ghost use Rattle.std.specs.Prelude.{◌≡◌, ◌+◌, ◌-◌, ◌*◌, ◌/◌, ◌^◌, ◌<◌, ◌≤◌, ◌↔◌, ◌⊎◌, ℕ, length, slice_index};
ghost use Rattle.auto_core.specs.Rows.{cell_of, HasCell};
ghost use Rattle.bit_rows.specs.Blocks.{IsTransposed};

use crate::blocks::transpose_block;

/// The word of the row at this place, in a table of so many rows; 0 past them.
fn word_at(table: &[u64], width: usize, rows: usize, row: usize, word: usize) -> u64
    requires table { rows * width ≤ length table.now }
    requires word { word < width }
    ensures inside { row < rows → result ≡ slice_index table.now (row * width + word) }
    ensures past { rows ≤ row → result ≡ 0 }
{
    if row < rows {
        table[row * width + word]
    } else {
        0
    }
}

/// Reads the words at this place of 64 rows from `first` on into the block.
fn read_block(
    table: &[u64],
    width: usize,
    rows: usize,
    first: usize,
    word: usize,
    block: &mut [u64],
)
    requires table { rows * width ≤ length table.now }
    requires word { word < width }
    requires few { first < 2 ^ 40 }
    requires block { length block.old ≡ 64 }
    ensures len { length block.new ≡ 64 }
    ensures inside { (k : ℕ) → k < 64 → first + k < rows
        → slice_index block.new k ≡ slice_index table.now ((first + k) * width + word) }
    ensures past { (k : ℕ) → k < 64 → rows ≤ first + k → slice_index block.new k ≡ 0 }
{
    for k in 0..64 {
        block[k] = word_at(table, width, rows, first + k, word);
    }
}

/// Writes the block as the words at this place of the rows from `first` on, as far as there are
/// rows.
fn write_block(
    block: &[u64],
    turned: &mut [u64],
    span: usize,
    columns: usize,
    first: usize,
    word: usize,
)
    requires block { length block.now ≡ 64 }
    requires turned { length turned.old ≡ columns * span }
    requires word { word < span }
    requires few { first < 2 ^ 40 }
    ensures here { (c : ℕ) → first ≤ c → c < first + 64 → c < columns
        → slice_index turned.new (c * span + word) ≡ slice_index block.now (c - first) }
    ensures others { (c r : ℕ) → r < span → ((r ≡ word) × (first ≤ c) × (c < first + 64) → ⊥)
        → slice_index turned.new (c * span + r) ≡ slice_index turned.old (c * span + r) }
{
    for c in first..columns.min(first + 64) {
        turned[c * span + word] = block[c - first];
    }
}

/// Transposes the block of the 64 rows and 64 columns with these numbers.
fn turn_block(
    table: &[u64],
    width: usize,
    rows: usize,
    turned: &mut [u64],
    span: usize,
    columns: usize,
    i: usize,
    j: usize,
    block: &mut [u64],
)
    requires table { rows * width ≤ length table.now }
    requires turned { length turned.old ≡ columns * span }
    requires row { i < span }
    requires column { j < width }
    requires few_rows { span < 2 ^ 32 }
    requires few_columns { width < 2 ^ 32 }
    requires block { length block.old ≡ 64 }
    ensures len { length block.new ≡ 64 }
    ensures here { (c r : ℕ) → c < columns → r / 64 ≡ i → c / 64 ≡ j
        → HasCell turned.new span c r ↔ ((r < rows) × HasCell table.now width r c) }
    ensures others { (c r : ℕ) → r < span * 64 → ((r / 64 ≡ i) × (c / 64 ≡ j) → ⊥)
        → cell_of turned.new span c r ≡ cell_of turned.old span c r }
{
    read_block(table, width, rows, i * 64, j, block);
    transpose_block(block);
    write_block(block, turned, span, columns, j * 64, i);
}

/// Transposes the 64 rows with this number.
fn turn_rows(
    table: &[u64],
    width: usize,
    rows: usize,
    turned: &mut [u64],
    span: usize,
    columns: usize,
    i: usize,
    block: &mut [u64],
)
    requires table { rows * width ≤ length table.now }
    requires turned { length turned.old ≡ columns * span }
    requires row { i < span }
    requires few_rows { span < 2 ^ 32 }
    requires few_columns { width < 2 ^ 32 }
    requires near { columns ≤ width * 64 }
    requires block { length block.old ≡ 64 }
    ensures len { length block.new ≡ 64 }
    ensures here { (c r : ℕ) → c < columns → r / 64 ≡ i
        → HasCell turned.new span c r ↔ ((r < rows) × HasCell table.now width r c) }
    ensures others { (c r : ℕ) → r < span * 64 → ¬ (r / 64 ≡ i)
        → cell_of turned.new span c r ≡ cell_of turned.old span c r }
{
    for j in 0..width {
        turn_block(table, width, rows, turned, span, columns, i, j, block);
    }
}

/// Writes into `turned` the first columns of the table as rows, as many as `columns` says. Rows of
/// the table have `width` words and those of `turned` have `span`; rows of the table past the first
/// `span * 64` are left out.
pub fn transpose(
    table: &[u64],
    width: usize,
    rows: usize,
    turned: &mut [u64],
    span: usize,
    columns: usize,
)
    requires table { rows * width ≤ length table.now }
    requires turned { length turned.old ≡ columns * span }
    requires few_rows { span < 2 ^ 32 }
    requires few_columns { width < 2 ^ 32 }
    requires near { columns ≤ width * 64 }
    ensures { (c r : ℕ) → c < columns → r < span * 64
        → HasCell turned.new span c r ↔ ((r < rows) × HasCell table.now width r c) }
{
    let mut block = [0; 64];
    for i in 0..span {
        turn_rows(table, width, rows, turned, span, columns, i, &mut block);
    }
}
