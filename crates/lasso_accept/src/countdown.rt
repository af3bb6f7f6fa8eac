//! From where a place is reached in so many arcs of a table, and the place on a flagged cycle.

ghost use Rattle.std.specs.Prelude.{◌≡◌, ◌+◌, ◌*◌, ◌^◌, ◌<◌, ◌≤◌, ◌↔◌, ◌⊎◌, ℕ, false, length, IfOk, IfSome, IfNone, IsTrue};
ghost use Rattle.auto_core.specs.Rows.{HasBit, HasCell, bit_of, cell_of};
ghost use Rattle.auto_core.specs.Reach.{IsTable, HasArc, MarksBelow, ReturnsTo, HasFlaggedCycle};
ghost use Rattle.auto_core.specs.Game.{Close};
ghost use Rattle.lasso_accept.specs.Countdown.{IsCountdown};

use crate::tables;
use auto_core::{Memory, reach, rows};
use std::alloc::Global;

/// The first place that is reached from the marks and that a flagged arc leaves which leads back to
/// it. The marks are left on all that is reached; `back` and `done` are room for one row each.
pub fn turning_place(
    any: &[u64],
    flagged: &[u64],
    count: u32,
    width: usize,
    marks: &mut [u64],
    back: &mut [u64],
    done: &mut [u64],
) -> Option<usize>
    requires any { IsTable any.now count width }
    requires flagged { IsTable flagged.now count width }
    requires few { width < 2 ^ 32 }
    requires marks_len { length marks.old ≡ width }
    requires back_len { length back.old ≡ width }
    requires done_len { length done.old ≡ width }
    requires marks_below { MarksBelow marks.old count }
    ensures found { IfSome result (λ at. (at < count)
        × ((start : ℕ) × HasBit marks.old start × Close (HasArc any.now count width) start at)
        × ReturnsTo (HasArc any.now count width) (HasArc flagged.now count width) at) }
    ensures none { IfNone result
        (HasFlaggedCycle (HasArc any.now count width) (HasArc flagged.now count width) marks.old
        → ⊥) }
{
    reach::reach(any, count, width, marks, done);
    for at in 0..count as usize {
        if !rows::has_bit(marks, at) {
            continue;
        }
        if reach::returns_to(any, flagged, count, width, at, back, done) {
            return Some(at);
        }
    }
    None
}

/// Tells whether the first table has the cell at `place` and `q`, and the second that at `at` and
/// `q`.
fn both_have(any: &[u64], table: &[u64], width: usize, place: usize, at: usize, q: usize) -> bool
    requires place_in { place * width + width ≤ length any.now }
    requires at_in { at * width + width ≤ length table.now }
    requires column { q < width * 64 }
    ensures { IsTrue result ↔ (HasCell any.now width place q × HasCell table.now width at q) }
{
    rows::has_cell(any, width, place, q) && rows::has_cell(table, width, at, q)
}

/// Tells whether an arc leads from the place into row `at` of the other table.
fn leads_into(any: &[u64], count: u32, width: usize, place: usize, table: &[u64], at: usize) -> bool
    requires any { IsTable any.now count width }
    requires place_in { place < count }
    requires at_in { at < count }
    requires len { length table.now ≡ count * width }
    ensures { IsTrue result
        ↔ ((q : ℕ) × HasArc any.now count width place q × HasCell table.now width at q) }
{
    for q in 0..count as usize {
        if both_have(any, table, width, place, at, q) {
            return true;
        }
    }
    false
}

/// Adds to row `at + 1` of the table the places from which an arc leads into row `at`.
fn write_next(any: &[u64], count: u32, width: usize, table: &mut [u64], at: usize)
    requires any { IsTable any.now count width }
    requires at_in { at + 1 < count }
    requires len { length table.old ≡ count * width }
    ensures here { (p : ℕ)
        → p < count
        → HasCell table.new width (at + 1) p
        ↔ (HasCell table.old width (at + 1) p ⊎ ((q : ℕ) × HasArc any.now count width p q × HasCell table.old width at q)) }
    ensures others { (r q : ℕ) → q < width * 64 → ¬ (r ≡ at + 1)
        → cell_of table.new width r q ≡ cell_of table.old width r q }
{
    for place in 0..count as usize {
        if leads_into(any, count, width, place, table, at) {
            rows::set_cell(table, width, at + 1, place);
        }
    }
}

/// Writes the rows of a countdown to the target over a clear table.
fn write_countdown(any: &[u64], count: u32, width: usize, target: usize, table: &mut [u64])
    requires any { IsTable any.now count width }
    requires target_in { target < count }
    requires len { length table.old ≡ count * width }
    requires clear { (i : ℕ) → bit_of table.old i ≡ false }
    ensures { IsCountdown (HasArc any.now count width) count width target table.new }
{
    rows::set_cell(table, width, 0, target);
    for at in 0..count as usize - 1 {
        write_next(any, count, width, table, at);
    }
}

/// For each number below `count` the row of the places from which just so many arcs lead to the
/// target.
pub fn countdown_to(
    alloc: Global,
    any: &[u64],
    count: u32,
    width: usize,
    target: usize,
) -> Result<Vec<u64>, Memory>
    requires any { IsTable any.now count width }
    requires few { width < 2 ^ 32 }
    requires target_in { target < count }
    ensures { IfOk
        result (λ table. IsCountdown (HasArc any.now count width) count width target table.items) }
{
    let mut table = tables::clear_table(alloc, count as usize * width)?;
    write_countdown(any, count, width, target, &mut table);
    Ok(table)
}

/// Tells whether the marks have the place, and row `at` of the table has it too.
fn has_both(marks: &[u64], table: &[u64], width: usize, at: usize, place: usize) -> bool
    requires marks_len { length marks.now ≡ width }
    requires at_in { at * width + width ≤ length table.now }
    requires column { place < width * 64 }
    ensures { IsTrue result ↔ (HasBit marks.now place × HasCell table.now width at place) }
{
    rows::has_bit(marks, place) && rows::has_cell(table, width, at, place)
}

/// Tells whether row `at` of the table and the marks have a place in common.
fn meets(table: &[u64], count: u32, width: usize, at: usize, marks: &[u64]) -> bool
    requires room { count ≤ width * 64 }
    requires len { length table.now ≡ count * width }
    requires at_in { at < count }
    requires marks_len { length marks.now ≡ width }
    ensures { IsTrue result
        ↔ ((p : ℕ) × (p < count) × HasBit marks.now p × HasCell table.now width at p) }
{
    for place in 0..count as usize {
        if has_both(marks, table, width, at, place) {
            return true;
        }
    }
    false
}

/// The number of the first row that has a place in common with the marks.
pub fn first_meeting(table: &[u64], count: u32, width: usize, marks: &[u64]) -> Option<usize>
    requires room { count ≤ width * 64 }
    requires len { length table.now ≡ count * width }
    requires marks_len { length marks.now ≡ width }
    ensures found { IfSome
        result (λ k.
        (k < count) × ((p : ℕ) × (p < count) × HasBit marks.now p × HasCell table.now width k p)) }
    ensures none { IfNone result
        ((k p : ℕ) → k < count → p < count → HasBit marks.now p → HasCell table.now width k p → ⊥) }
{
    for at in 0..count as usize {
        if meets(table, count, width, at, marks) {
            return Some(at);
        }
    }
    None
}
