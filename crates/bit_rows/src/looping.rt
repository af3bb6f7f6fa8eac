//! The marks of loops, in room that is made once.

ghost use Rattle.std.specs.Prelude.{◌≡◌, ◌+◌, ◌*◌, ◌/◌, ◌^◌, ◌<◌, ◌↔◌, ℕ, length, IfOk};
ghost use Rattle.auto_core.specs.Rows.{HasBit};
ghost use Rattle.auto_core.specs.Reach.{IsTable, HasArc};
ghost use Rattle.bit_rows.specs.Loops.{AreArcs, IsTurned, LeadsToLoop};

use crate::components::mark_component;
use crate::turning::turn;
use auto_core::{Memory, rows};
use std::alloc::Global;
use std::marker::Model;

/// Room for tables of one number of places. Contracts see it as that number.
#[derive(Debug, Drop)]
pub struct Room {
    places: u32,
    turned: Vec<u64>,
    done_places: Vec<u64>,
    component: Vec<u64>,
    behind: Vec<u64>,
    done: Vec<u64>,
}

impl Model for Room {
    ghost use Rattle.std.specs.Prelude.{ℕ};

    ghost Value = { ℕ };

    ghost use Rattle.bit_rows.specs.Room.{places_of, HasLoopRoom};

    ghost view = { places_of };

    ghost invariant = { HasLoopRoom };
}

/// Marks the places from which one is reached that a flagged arc leads out of and back to, in rows
/// and a table for the work.
fn mark_in(
    any: &[u64],
    flagged: &[u64],
    count: u32,
    width: usize,
    looping: &mut [u64],
    turned: &mut [u64],
    done_places: &mut [u64],
    component: &mut [u64],
    behind: &mut [u64],
    done: &mut [u64],
)
    requires any { IsTable any.now count width }
    requires flagged { IsTable flagged.now count width }
    requires arcs { AreArcs (HasArc flagged.now count width) (HasArc any.now count width) }
    requires few { width < 2 ^ 32 }
    requires looping_len { length looping.old ≡ width }
    requires turned_len { length turned.old ≡ count * width }
    requires done_places_len { length done_places.old ≡ width }
    requires component_len { length component.old ≡ width }
    requires behind_len { length behind.old ≡ width }
    requires done_len { length done.old ≡ width }
    ensures { (q : ℕ)
        → HasBit looping.new q
        ↔ ((q < count) × LeadsToLoop (HasArc any.now count width) (HasArc flagged.now count width) q) }
{
    turn(any, count, width, turned);
    rows::clear_row(looping);
    rows::clear_row(done_places);
    for at in 0..count as usize {
        if rows::has_bit(looping, at) || rows::has_bit(done_places, at) {
            continue;
        }
        mark_component(
            any,
            flagged,
            turned,
            count,
            width,
            at,
            looping,
            done_places,
            component,
            behind,
            done,
        );
    }
}

fn row(alloc: Global, places: u32) -> Result<Vec<u64>, Memory>
    ensures { IfOk result (λ row. length row.items ≡ (places + 63) / 64) }
{
    Ok(vec![in alloc; 0; rows::words_for(places)]?)
}

impl Room {
    /// Room for tables of so many places.
    pub fn new(alloc: Global, places: u32) -> Result<Room, Memory>
        ensures { IfOk result (λ room. room ≡ places) }
    {
        let turned = vec![in alloc; 0; places as usize * rows::words_for(places)]?;
        let done_places = row(alloc, places)?;
        let component = row(alloc, places)?;
        let behind = row(alloc, places)?;
        let done = row(alloc, places)?;
        Ok(Room {
            places,
            turned,
            done_places,
            component,
            behind,
            done,
        })
    }
}

/// Marks the places of the table `any` from which its arcs lead to one that a flagged arc leads out
/// of and back to, by any number of arcs. What the room and the row hold before does not matter.
pub fn mark_loops(any: &[u64], flagged: &[u64], count: u32, looping: &mut [u64], room: &mut Room)
    requires any { IsTable any.now count ((count + 63) / 64) }
    requires flagged { IsTable flagged.now count ((count + 63) / 64) }
    requires arcs { AreArcs (HasArc flagged.now count ((count + 63) / 64))
        (HasArc any.now count ((count + 63) / 64)) }
    requires room { room.old ≡ count }
    requires row { length looping.old ≡ (count + 63) / 64 }
    ensures marked { (q : ℕ)
        → HasBit looping.new q
        ↔ ((q < count) × LeadsToLoop (HasArc any.now count ((count + 63) / 64)) (HasArc flagged.now count ((count + 63) / 64)) q) }
    ensures kept { room.new ≡ count }
{
    mark_in(
        any,
        flagged,
        count,
        rows::words_for(count),
        looping,
        &mut room.turned,
        &mut room.done_places,
        &mut room.component,
        &mut room.behind,
        &mut room.done,
    );
}
