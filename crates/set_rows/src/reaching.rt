//! The states that the runs on a word lead to.

ghost use Rattle.std.specs.Prelude.{◌≡◌, ◌+◌, ◌/◌, ◌↔◌, ℕ, length, IfOk};
ghost use Rattle.auto_core.specs.Pairs.{set_of};
ghost use Rattle.auto_core.specs.Rows.{HasBit};
ghost use Rattle.set_rows.specs.Sets.{IsRow};

use crate::moving::{write_after, write_one};
use auto_core::{Auto, Memory, rows};
use std::alloc::Global;

/// Writes the states that runs on the word lead to from the initial state: letter by letter, the
/// set after it. The other row is used on the way.
fn write_reached(automaton: &Auto, word: &[u32], row: &mut [u64], next: &mut [u64])
    requires row { length row.old ≡ (automaton.now.states + 63) / 64 }
    requires next { length next.old ≡ (automaton.now.states + 63) / 64 }
    ensures row { IsRow automaton.now.states row.new }
    ensures members { (q : ℕ) → HasBit row.new q ↔ set_of automaton.now word.now q }
{
    write_one(automaton.states(), automaton.initial(), row);
    for at in 0..word.len() {
        write_after(automaton, word[at], row, next);
        row.copy_from_slice(next);
    }
}

/// The states that runs on the word lead to from the initial state. A letter that the automaton has
/// no transitions for is allowed.
pub fn reached(alloc: Global, automaton: &Auto, word: &[u32]) -> Result<Vec<u64>, Memory>
    ensures row { IfOk result (λ row. IsRow automaton.now.states row.items) }
    ensures members { IfOk
        result (λ row. (q : ℕ) → HasBit row.items q ↔ set_of automaton.now word.now q) }
{
    let width = rows::words_for(automaton.states());
    let mut row = vec![in alloc; 0; width]?;
    let mut next = vec![in alloc; 0; width]?;
    write_reached(automaton, word, &mut row, &mut next);
    Ok(row)
}
