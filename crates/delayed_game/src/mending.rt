//! The states from which a move leads into a row of states that lost some, found by those that it
//! lost.

ghost use Rattle.std.specs.Prelude.{◌≡◌, ◌+◌, ◌*◌, ◌/◌, ◌<◌, ◌≤◌, ◌↔◌, ℕ, false, length, IsTrue};
ghost use Rattle.auto_core.specs.Automaton.{IsAutomaton, Moves};
ghost use Rattle.auto_core.specs.Rows.{bit_of, HasBit, HasCell};
ghost use Rattle.delayed_game.specs.Before.{LeadsTo};

use auto_core::{Auto, rows};
use bit_rows::next_bit;

/// Sets each bit of the row.
fn fill_row(row: &mut [u64])
    ensures { (i : ℕ) → i < length row.old * 64 → HasBit row.new i }
{
    for i in 0..row.len() {
        row[i] = u64::MAX;
    }
}

/// Tells whether a move from the state by the letter leads to a state of `ends`.
fn leads_to(automaton: &Auto, state: u32, label: u32, ends: &[u64]) -> bool
    requires state { state < automaton.now.states }
    requires ends_len { length ends.now ≡ (automaton.now.states + 63) / 64 }
    ensures { IsTrue result ↔ LeadsTo automaton.now label ends.now state }
{
    let span = automaton.successors(state, label);
    for t in span.begin..span.end {
        if rows::has_bit(ends, automaton.transitions()[t as usize].target as usize) {
            return true;
        }
    }
    false
}

/// Clears the states from which a move leads to `right` and none by its letter to a state of
/// `ends`, each in the row of the letter.
fn clear_before(automaton: &Auto, right: u32, ends: &[u64], made: &mut [u64], width: usize)
    requires valid { IsAutomaton automaton.now }
    requires state { right < automaton.now.states }
    requires width { width ≡ (automaton.now.states + 63) / 64 }
    requires ends_len { length ends.now ≡ width }
    requires made { length made.old ≡ automaton.now.labels * width }
    ensures { (a q : ℕ) → q < width * 64 → HasCell made.new width a q
        ↔ (HasCell made.old width a q × (Moves automaton.now q a right → LeadsTo automaton.now a ends.now q)) }
{
    let before = automaton.predecessors(right);
    for i in 0..before.len() {
        let step = automaton.transitions()[before[i] as usize];
        if !leads_to(automaton, step.source, step.label, ends) {
            rows::clear_cell(made, width, step.label as usize, step.source as usize);
        }
    }
}

/// Writes into the row of each letter at least the states from which a move by it leads to a state
/// of `ends`, and of those from which one leads to a state of `lost` no others.
pub fn mend_before(automaton: &Auto, lost: &[u64], ends: &[u64], made: &mut [u64], width: usize)
    requires valid { IsAutomaton automaton.now }
    requires width { width ≡ (automaton.now.states + 63) / 64 }
    requires lost { (r : ℕ) → HasBit lost.now r → r < automaton.now.states }
    requires lost_len { length lost.now ≡ width }
    requires ends_len { length ends.now ≡ width }
    requires made { length made.old ≡ automaton.now.labels * width }
    ensures keeps { (a q : ℕ) → a < automaton.now.labels → q < width * 64
        → LeadsTo automaton.now a ends.now q → HasCell made.new width a q }
    ensures clears { (a q r : ℕ) → q < width * 64 → HasCell made.new width a q → HasBit lost.now r
        → Moves automaton.now q a r → LeadsTo automaton.now a ends.now q }
{
    fill_row(made);
    let mut at = 0;
    while let Some(right) = next_bit(lost, at) {
        clear_before(automaton, right as u32, ends, made, width);
        at = right + 1;
    }
}
