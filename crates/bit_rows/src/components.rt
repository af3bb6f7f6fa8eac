//! Components of a table of arcs, and what they mark.

ghost use Rattle.std.specs.Prelude.{◌≡◌, ◌+◌, ◌^◌, ◌<◌, ◌↔◌, ℕ, length, IsTrue};
ghost use Rattle.auto_core.specs.Game.{Close};
ghost use Rattle.auto_core.specs.Rows.{HasBit};
ghost use Rattle.auto_core.specs.Reach.{IsTable, HasArc};
ghost use Rattle.bit_rows.specs.Loops.{AreArcs, IsTurned};
ghost use Rattle.bit_rows.specs.Marking.{HasArcWithin, IsComponent, AreDone};

use crate::bits::next_bit;
use crate::meeting::meets;
use crate::tables::and_row;
use auto_core::{reach, rows};

/// Writes the places that are reached from this one. `done` is room for one row.
fn write_reached(
    table: &[u64],
    count: u32,
    width: usize,
    at: usize,
    out: &mut [u64],
    done: &mut [u64],
)
    requires table { IsTable table.now count width }
    requires few { width < 2 ^ 32 }
    requires at_in { at < count }
    requires out_len { length out.old ≡ width }
    requires done_len { length done.old ≡ width }
    ensures { (q : ℕ) → HasBit out.new q ↔ Close (HasArc table.now count width) at q }
{
    rows::clear_row(out);
    rows::set_bit(out, at);
    reach::reach(table, count, width, out, done);
}

/// Writes the component of the place, and the places that reach it. `done` is room for one row.
fn write_component(
    table: &[u64],
    turned: &[u64],
    count: u32,
    width: usize,
    at: usize,
    component: &mut [u64],
    behind: &mut [u64],
    done: &mut [u64],
)
    requires table { IsTable table.now count width }
    requires turned { IsTurned table.now turned.now count width }
    requires few { width < 2 ^ 32 }
    requires at_in { at < count }
    requires component_len { length component.old ≡ width }
    requires behind_len { length behind.old ≡ width }
    requires done_len { length done.old ≡ width }
    ensures component { IsComponent (HasArc table.now count width) at component.new }
    ensures behind { (q : ℕ) → HasBit behind.new q ↔ Close (HasArc table.now count width) q at }
{
    write_reached(table, count, width, at, component, done);
    write_reached(turned, count, width, at, behind, done);
    and_row(component, width, 0, behind);
}

/// Tells whether a flagged arc leads from one of the places to one of them.
fn has_arc_within(flagged: &[u64], count: u32, width: usize, places: &[u64]) -> bool
    requires flagged { IsTable flagged.now count width }
    requires few { width < 2 ^ 32 }
    requires len { length places.now ≡ width }
    requires below { (q : ℕ) → HasBit places.now q → q < count }
    ensures { IsTrue result ↔ HasArcWithin (HasArc flagged.now count width) places.now }
{
    let mut from = 0;
    while let Some(place) = next_bit(places, from) {
        if meets(rows::row_at(flagged, width, place), places) {
            return true;
        }
        from = place + 1;
    }
    false
}

/// Marks all that reaches the place as looping where a flagged arc leads within its component, and
/// otherwise its component as done. The last three rows are used on the way.
pub fn mark_component(
    any: &[u64],
    flagged: &[u64],
    turned: &[u64],
    count: u32,
    width: usize,
    at: usize,
    looping: &mut [u64],
    done_places: &mut [u64],
    component: &mut [u64],
    behind: &mut [u64],
    done: &mut [u64],
)
    requires any { IsTable any.now count width }
    requires flagged { IsTable flagged.now count width }
    requires arcs { AreArcs (HasArc flagged.now count width) (HasArc any.now count width) }
    requires turned { IsTurned any.now turned.now count width }
    requires few { width < 2 ^ 32 }
    requires at_in { at < count }
    requires looping_len { length looping.old ≡ width }
    requires done_places_len { length done_places.old ≡ width }
    requires component_len { length component.old ≡ width }
    requires behind_len { length behind.old ≡ width }
    requires done_len { length done.old ≡ width }
    requires so_far { AreDone (HasArc any.now count width) (HasArc flagged.now count width) count
        looping.old done_places.old at }
    ensures { AreDone (HasArc any.now count width) (HasArc flagged.now count width) count
        looping.new done_places.new (at + 1) }
{
    write_component(any, turned, count, width, at, component, behind, done);
    if has_arc_within(flagged, count, width, component) {
        rows::add_bits(looping, behind);
    } else {
        rows::add_bits(done_places, component);
    }
}
