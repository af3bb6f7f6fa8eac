//! The rows that a change of others can touch.

ghost use Rattle.std.specs.Prelude.{◌≡◌, ◌+◌, ◌/◌, ◌<◌, ◌⊎◌, ℕ, false, length};
ghost use Rattle.auto_core.specs.Automaton.{IsAutomaton};
ghost use Rattle.auto_core.specs.Rows.{bit_of, HasBit};
ghost use Rattle.look_game.specs.Near.{MarksNear};

use auto_core::{Auto, rows};
use look_round::Side;

/// Tells whether a move from `p` leads to a state that one of the two rows marks.
fn moves_into<S: Side>(side: &S, automaton: &Auto, p: u32, marks: &[u64], near: &[u64]) -> bool
    requires state { p < automaton.now.states }
    requires marks_len { length marks.now ≡ (automaton.now.states + 63) / 64 }
    requires near_len { length near.now ≡ (automaton.now.states + 63) / 64 }
    ensures { result ≡ false → (a m : ℕ) → S.goes side.now automaton.now p a m
        → (bit_of marks.now m ≡ false) × (bit_of near.now m ≡ false) }
{
    for at in 0..side.moves(automaton, p) {
        let to = side.nth(automaton, p, at).to as usize;
        if rows::has_bit(marks, to) {
            return true;
        }
        if rows::has_bit(near, to) {
            return true;
        }
    }
    false
}

/// Marks in `next` the states from which a move leads to a state that one of the other rows marks.
fn step_near<S: Side>(side: &S, automaton: &Auto, marks: &[u64], near: &[u64], next: &mut [u64])
    requires marks_len { length marks.now ≡ (automaton.now.states + 63) / 64 }
    requires near_len { length near.now ≡ (automaton.now.states + 63) / 64 }
    requires next_len { length next.old ≡ (automaton.now.states + 63) / 64 }
    ensures { (p a m : ℕ)
        → p < automaton.now.states
        → S.goes side.now automaton.now p a m
        → HasBit marks.now m ⊎ HasBit near.now m
        → HasBit next.new p }
{
    rows::clear_row(next);
    for p in 0..automaton.states() {
        if moves_into(side, automaton, p, marks, near) {
            rows::set_bit(next, p as usize);
        }
    }
}

/// Marks in `near` the states from which a marked state is reached in at least one and at most
/// `look` moves. `spare` is room for one row.
pub fn mark_near<S: Side>(
    side: &S,
    automaton: &Auto,
    look: u32,
    marks: &[u64],
    near: &mut [u64],
    spare: &mut [u64],
)
    requires valid { IsAutomaton automaton.now }
    requires marks_len { length marks.now ≡ (automaton.now.states + 63) / 64 }
    requires near_len { length near.old ≡ (automaton.now.states + 63) / 64 }
    requires spare_len { length spare.old ≡ (automaton.now.states + 63) / 64 }
    ensures { MarksNear (S.goes side.now automaton.now) automaton.now.states look marks.now
        near.new }
{
    rows::clear_row(near);
    for _step in 0..look {
        step_near(side, automaton, marks, near, spare);
        near.copy_from_slice(spare);
    }
}
