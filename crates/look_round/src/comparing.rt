//! Rows narrowed by comparing states: the columns of words that one has with those that another
//! has.

ghost use Rattle.std.specs.Prelude.{◌≡◌, ◌+◌, ◌*◌, ◌/◌, ◌^◌, ◌<◌, ◌≤◌, ◌↔◌, ℕ, false, length, IfOk};
ghost use Rattle.auto_core.specs.Rows.{bit_of, cell_of, HasBit, HasCell};
ghost use Rattle.look_round.specs.Words.{HasColumns, IsRowNarrowed};

use auto_core::{Memory, rows};
use bit_rows::{next_bit, subset, transpose};
use std::alloc::Global;

/// Takes q from row p, unless `other` has each bit of `own`.
fn keep_if_within(table: &mut [u64], width: usize, p: usize, q: usize, own: &[u64], other: &[u64])
    requires row { p * width + width ≤ length table.old }
    requires state { q < width * 64 }
    requires equal { length own.now ≡ length other.now }
    ensures here { HasCell table.new width p q
        ↔ (HasCell table.old width p q × ((k : ℕ) → HasBit own.now k → HasBit other.now k)) }
    ensures others { (r s : ℕ) → s < width * 64 → ¬ ((r ≡ p) × (s ≡ q))
        → cell_of table.new width r s ≡ cell_of table.old width r s }
{
    if !subset(own, other) {
        rows::clear_cell(table, width, p, q);
    }
}

/// Takes from row p, which is `row`, the states that have not each column that p has.
fn keep_above(
    table: &mut [u64],
    width: usize,
    p: usize,
    row: &[u64],
    had: &[u64],
    span: usize,
    count: usize,
)
    requires table { p * width + width ≤ length table.old }
    requires few { width < 2 ^ 32 }
    requires len { length row.now ≡ width }
    requires row { (q : ℕ) → q < width * 64 → bit_of row.now q ≡ cell_of table.old width p q }
    requires states { (q : ℕ) → HasBit row.now q → q < count }
    requires had { length had.now ≡ count * span }
    requires state { p < count }
    ensures here { (q : ℕ) → q < width * 64 → HasCell table.new width p q
        ↔ (HasCell table.old width p q × ((k : ℕ) → k < span * 64 → HasCell had.now span p k → HasCell had.now span q k)) }
    ensures others { (r q : ℕ) → q < width * 64 → ¬ (r ≡ p)
        → cell_of table.new width r q ≡ cell_of table.old width r q }
{
    let own = rows::row_at(had, span, p);
    let mut at = 0;
    while let Some(q) = next_bit(row, at) {
        keep_if_within(table, width, p, q, own, rows::row_at(had, span, q));
        at = q + 1;
    }
}

/// Takes from each row the states that have not each column that the row's own has. `row` is room
/// for one row.
fn keep_each_above(
    table: &mut [u64],
    count: u32,
    width: usize,
    had: &[u64],
    span: usize,
    columns: &[u64],
    used: usize,
    row: &mut [u64],
)
    requires table { length table.old ≡ count * width }
    requires states { (p q : ℕ) → p < count → q < width * 64 → HasCell table.old width p q
        → q < count }
    requires few { width < 2 ^ 32 }
    requires near { count ≤ width * 64 }
    requires len { length row.old ≡ width }
    requires room { used ≤ span * 64 }
    requires had_len { length had.now ≡ count * span }
    requires had { (q : ℕ) → q < count → HasColumns columns.now width used had.now span q }
    ensures { (p : ℕ) → p < count → IsRowNarrowed table.old table.new width columns.now p used }
{
    for p in 0..count as usize {
        row.copy_from_slice(rows::row_at(table, width, p));
        keep_above(table, width, p, row, had, span, count as usize);
    }
}

/// Takes from each row what a column has not that has the row's own state.
pub(crate) fn compare(
    alloc: Global,
    table: &mut [u64],
    count: u32,
    width: usize,
    columns: &[u64],
    used: usize,
) -> Result<(), Memory>
    requires table { length table.old ≡ count * width }
    requires states { (p q : ℕ) → p < count → q < width * 64 → HasCell table.old width p q
        → q < count }
    requires few { width < 2 ^ 32 }
    requires near { count ≤ width * 64 }
    requires some { used < 2 ^ 32 }
    requires columns { used * width ≤ length columns.now }
    ensures { IfOk
        result (λ _.
        (p : ℕ) → p < count → IsRowNarrowed table.old table.new width columns.now p used) }
{
    let span = used / 64 + 1;
    let mut had = vec![in alloc; 0; count as usize * span]?;
    let mut row = vec![in alloc; 0; width]?;
    transpose(columns, width, used, &mut had, span, count as usize);
    keep_each_above(table, count, width, &had, span, columns, used, &mut row);
    Ok(())
}
