//! What is reached along the arcs of a table of bits, and the cycles among it.

ghost use Rattle.std.specs.Prelude.{◌≡◌, ◌+◌, ◌*◌, ◌^◌, ◌<◌, ◌≤◌, ◌↔◌, ℕ, length, IsTrue};
ghost use Rattle.auto_core.specs.Rows.{HasBit, HasCell};
ghost use Rattle.auto_core.specs.Reach.{IsTable, HasArc, MarksBelow, AreReached, ReturnsTo, HasFlaggedCycle};

use crate::rows;

/// Marks all that is reached from the marks along the arcs of the table of `count` rows.
/// `done` is room for one row; what it holds does not matter.
pub fn reach(table: &[u64], count: u32, width: usize, marks: &mut [u64], done: &mut [u64])
    requires table { IsTable table.now count width }
    requires few { width < 2 ^ 32 }
    requires marks_len { length marks.old ≡ width }
    requires done_len { length done.old ≡ width }
    requires marks_below { MarksBelow marks.old count }
    ensures reached { AreReached (HasArc table.now count width) marks.old marks.new }
    ensures below { MarksBelow marks.new count }
{
    rows::clear_row(done);
    while let Some(place) = rows::first_missing(marks, done) {
        rows::set_bit(done, place);
        rows::add_bits(marks, rows::row_at(table, width, place));
    }
}

/// Tells whether a flagged arc out of the place leads back to it, by any number of arcs. `back` and
/// `done` are room for one row each.
pub fn returns_to(
    any: &[u64],
    flagged: &[u64],
    count: u32,
    width: usize,
    at: usize,
    back: &mut [u64],
    done: &mut [u64],
) -> bool
    requires any { IsTable any.now count width }
    requires flagged { IsTable flagged.now count width }
    requires few { width < 2 ^ 32 }
    requires back_len { length back.old ≡ width }
    requires done_len { length done.old ≡ width }
    requires place { at < count }
    ensures { IsTrue result
        ↔ ReturnsTo (HasArc any.now count width) (HasArc flagged.now count width) at }
{
    back.copy_from_slice(rows::row_at(flagged, width, at));
    reach(any, count, width, back, done);
    rows::has_bit(back, at)
}

/// Tells whether along the arcs of `any` a cycle with an arc of `flagged` is reached from the
/// marks. Both tables have `count` rows; `back` and `done` are room for one row each. The marks are
/// left on all that is reached.
pub fn has_flagged_cycle(
    any: &[u64],
    flagged: &[u64],
    count: u32,
    width: usize,
    marks: &mut [u64],
    back: &mut [u64],
    done: &mut [u64],
) -> bool
    requires any { IsTable any.now count width }
    requires flagged { IsTable flagged.now count width }
    requires few { width < 2 ^ 32 }
    requires marks_len { length marks.old ≡ width }
    requires back_len { length back.old ≡ width }
    requires done_len { length done.old ≡ width }
    requires marks_below { MarksBelow marks.old count }
    ensures told { IsTrue result
        ↔ HasFlaggedCycle (HasArc any.now count width) (HasArc flagged.now count width) marks.old }
    ensures reached { AreReached (HasArc any.now count width) marks.old marks.new }
{
    reach(any, count, width, marks, done);
    for at in 0..count as usize {
        if !rows::has_bit(marks, at) {
            continue;
        }
        if returns_to(any, flagged, count, width, at, back, done) {
            return true;
        }
    }
    false
}
