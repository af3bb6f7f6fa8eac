//! The states from which a move by a letter leads into a row of states, for all letters by which
//! moves lead to one place.

ghost use Rattle.std.specs.Prelude.{◌≡◌, ◌+◌, ◌*◌, ◌/◌, ◌<◌, ◌≤◌, ◌↔◌, ◌⊎◌, ℕ, false, length};
ghost use Rattle.auto_core.specs.Automaton.{IsAutomaton, Moves};
ghost use Rattle.auto_core.specs.Rows.{cell_of, HasBit, HasCell};
ghost use Rattle.delayed_game.specs.Before.{LeadsTo, AreSetsIfAny};

use crate::sets::mark_ends_by;
use auto_core::{Auto, rows};
use bit_rows::{clear_table_row, next_bit};

/// Clears the rows of the letters by which moves lead to the place.
fn clear_letters(places: &Auto, to: u32, made: &mut [u64], width: usize)
    requires valid { IsAutomaton places.now }
    requires place { to < places.now.states }
    requires made { length made.old ≡ places.now.labels * width }
    ensures { (p a q : ℕ) → Moves places.now p a to → q < width * 64
        → cell_of made.new width a q ≡ false }
{
    let before = places.predecessors(to);
    for i in 0..before.len() {
        let step = places.transitions()[before[i] as usize];
        clear_table_row(made, width, step.label as usize);
    }
}

/// Marks the states from which a move leads to `right`, each in the row of the move's letter.
pub fn mark_before(automaton: &Auto, right: u32, made: &mut [u64], width: usize)
    requires valid { IsAutomaton automaton.now }
    requires state { right < automaton.now.states }
    requires room { automaton.now.states ≤ width * 64 }
    requires made { length made.old ≡ automaton.now.labels * width }
    ensures { (a q : ℕ) → q < width * 64
        → HasCell made.new width a q
        ↔ (HasCell made.old width a q ⊎ Moves automaton.now q a right) }
{
    let before = automaton.predecessors(right);
    for i in 0..before.len() {
        let step = automaton.transitions()[before[i] as usize];
        rows::set_cell(made, width, step.label as usize, step.source as usize);
    }
}

/// Marks the states from which a move leads to a state of `ends`, each in the row of the move's
/// letter.
pub fn mark_ends(automaton: &Auto, ends: &[u64], made: &mut [u64], width: usize)
    requires valid { IsAutomaton automaton.now }
    requires ends { (q : ℕ) → HasBit ends.now q → q < automaton.now.states }
    requires width { width ≡ (automaton.now.states + 63) / 64 }
    requires ends_len { length ends.now ≡ width }
    requires made { length made.old ≡ automaton.now.labels * width }
    ensures { (a q : ℕ) → q < width * 64
        → HasCell made.new width a q
        ↔ (HasCell made.old width a q ⊎ LeadsTo automaton.now a ends.now q) }
{
    let mut at = 0;
    while let Some(right) = next_bit(ends, at) {
        mark_before(automaton, right as u32, made, width);
        at = right + 1;
    }
}

/// Writes into the row of each letter by which moves lead to the place `to` the states from which a
/// move by it leads to a state of
/// `ends`. `sets` has the table of sets, or nothing.
pub fn write_before(
    places: &Auto,
    automaton: &Auto,
    sets: &[u64],
    to: u32,
    ends: &[u64],
    made: &mut [u64],
    width: usize,
)
    requires sound { IsAutomaton places.now }
    requires valid { IsAutomaton automaton.now }
    requires labels { places.now.labels ≡ automaton.now.labels }
    requires sets { AreSetsIfAny automaton.now width sets.now }
    requires place { to < places.now.states }
    requires ends { (q : ℕ) → HasBit ends.now q → q < automaton.now.states }
    requires width { width ≡ (automaton.now.states + 63) / 64 }
    requires ends_len { length ends.now ≡ width }
    requires made { length made.old ≡ automaton.now.labels * width }
    ensures { (p a q : ℕ) → Moves places.now p a to → q < width * 64
        → HasCell made.new width a q ↔ LeadsTo automaton.now a ends.now q }
{
    clear_letters(places, to, made, width);
    if sets.is_empty() {
        mark_ends(automaton, ends, made, width);
    } else {
        mark_ends_by(automaton, sets, ends, made, width);
    }
}
