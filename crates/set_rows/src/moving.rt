//! The set of one state, and the set that moves with a letter lead to.

ghost use Rattle.std.specs.Prelude.{◌≡◌, ◌+◌, ◌/◌, ◌<◌, ◌⊎◌, ◌↔◌, ℕ, length};
ghost use Rattle.auto_core.specs.Automaton.{Moves};
ghost use Rattle.auto_core.specs.Pairs.{set_after};
ghost use Rattle.auto_core.specs.Rows.{HasBit};
ghost use Rattle.set_rows.specs.Sets.{IsRow};

use auto_core::{Auto, rows};

/// Writes the set of this state alone. The row has room for so many states.
pub fn write_one(states: u32, state: u32, out: &mut [u64])
    requires is_state { state < states }
    requires len { length out.old ≡ (states + 63) / 64 }
    ensures row { IsRow states out.new }
    ensures members { (q : ℕ) → HasBit out.new q ↔ (q ≡ state) }
{
    rows::clear_row(out);
    rows::set_bit(out, state as usize);
}

/// Adds the states that a move with the label leads to from the state.
fn add_moves(automaton: &Auto, label: u32, from: u32, out: &mut [u64])
    requires is_state { from < automaton.now.states }
    requires row { IsRow automaton.now.states out.old }
    ensures row { IsRow automaton.now.states out.new }
    ensures members { (q : ℕ)
        → HasBit out.new q ↔ (HasBit out.old q ⊎ Moves automaton.now from label q) }
{
    let span = automaton.successors(from, label);
    let transitions = automaton.transitions();
    for t in span.begin..span.end {
        rows::set_bit(out, transitions[t as usize].target as usize);
    }
}

/// Writes the states that moves with the label lead to from the members of the set.
pub fn write_after(automaton: &Auto, label: u32, from: &[u64], out: &mut [u64])
    requires from { IsRow automaton.now.states from.now }
    requires len { length out.old ≡ (automaton.now.states + 63) / 64 }
    ensures row { IsRow automaton.now.states out.new }
    ensures members { (q : ℕ)
        → HasBit out.new q ↔ set_after automaton.now (HasBit from.now) label q }
{
    rows::clear_row(out);
    for state in 0..automaton.states() {
        if rows::has_bit(from, state as usize) {
            add_moves(automaton, label, state, out);
        }
    }
}
