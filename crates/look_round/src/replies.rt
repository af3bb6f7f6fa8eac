//! How Duplicator answers a move: the states by which one state answers it, or those of a row.

ghost use Rattle.std.specs.Prelude.{◌≡◌, ◌+◌, ◌*◌, ◌/◌, ◌<◌, ◌≤◌, ◌↔◌, ◌⊎◌, ℕ, false, length, slice_index, IsTrue};
ghost use Rattle.auto_core.specs.Rows.{cell_of, HasCell, HasBit};
ghost use Rattle.auto_core.specs.Automaton.{IsAutomaton};
ghost use Rattle.look_round.specs.Replies.{IsReply, IsInRow, HasReply, HasReplyFrom};

use crate::moves::Move;
use crate::sides::Side;
use auto_core::{Auto, rows};
use bit_rows::{clear_table_row, next_bit};

/// Tells whether the reply answers the step: it has the step's letter, and its state matches the
/// step's.
pub fn is_reply<S: Side>(side: &S, automaton: &Auto, step: Move, reply: Move) -> bool
    requires step { step.to < automaton.now.states }
    requires reply { reply.to < automaton.now.states }
    ensures { IsTrue result
        ↔ ((reply.label ≡ step.label) × S.matches side.now automaton.now step.to reply.to) }
{
    if reply.label == step.label {
        side.matched(automaton, step.to, reply.to)
    } else {
        false
    }
}

/// Tells whether `from` answers the step by a state of the row.
pub fn has_reply_in<S: Side>(side: &S, automaton: &Auto, from: u32, step: Move, row: &[u64]) -> bool
    requires from { from < automaton.now.states }
    requires step { step.to < automaton.now.states }
    requires row { length row.now ≡ (automaton.now.states + 63) / 64 }
    ensures { IsTrue result
        ↔ ((r : ℕ) × IsReply (S.goes side.now automaton.now) (S.matches side.now automaton.now)
        step.label step.to from r × HasBit row.now r) }
{
    for at in 0..side.moves(automaton, from) {
        let reply = side.nth(automaton, from, at);
        if rows::has_bit(row, reply.to as usize) && is_reply(side, automaton, step, reply) {
            return true;
        }
    }
    false
}

/// Adds to the row of the table the states by which `from` answers the step.
fn mark_replies<S: Side>(
    side: &S,
    automaton: &Auto,
    from: u32,
    step: Move,
    table: &mut [u64],
    width: usize,
    row: usize,
)
    requires from { from < automaton.now.states }
    requires step { step.to < automaton.now.states }
    requires fits { row * width + width ≤ length table.old }
    requires room { automaton.now.states ≤ width * 64 }
    ensures here { (r : ℕ) → r < width * 64
        → HasCell table.new width row r
        ↔ (HasCell table.old width row r ⊎ IsReply (S.goes side.now automaton.now) (S.matches side.now automaton.now) step.label step.to from r) }
    ensures others { (i r : ℕ) → r < width * 64 → ¬ (i ≡ row)
        → cell_of table.new width i r ≡ cell_of table.old width i r }
{
    for at in 0..side.moves(automaton, from) {
        let reply = side.nth(automaton, from, at);
        if is_reply(side, automaton, step, reply) {
            rows::set_cell(table, width, row, reply.to as usize);
        }
    }
}

/// Writes into row `number` of the table the states by which the states of the row `from` answer
/// the step.
pub fn step_replies<S: Side>(
    side: &S,
    automaton: &Auto,
    step: Move,
    from: &[u64],
    table: &mut [u64],
    width: usize,
    number: usize,
)
    requires valid { IsAutomaton automaton.now }
    requires step { step.to < automaton.now.states }
    requires from { length from.now ≡ width }
    requires here { number * width + width ≤ length table.old }
    requires width { width ≡ (automaton.now.states + 63) / 64 }
    ensures here { (r : ℕ)
        → HasReply table.new automaton.now.states width number r
        ↔ HasReplyFrom (S.goes side.now automaton.now) (S.matches side.now automaton.now) step.label step.to (IsInRow from.now automaton.now.states) r }
    ensures others { (i r : ℕ) → r < width * 64 → ¬ (i ≡ number)
        → cell_of table.new width i r ≡ cell_of table.old width i r }
{
    clear_table_row(table, width, number);
    let mut at = 0;
    while let Some(q) = next_bit(from, at) {
        if q >= automaton.states() as usize {
            return;
        }
        mark_replies(side, automaton, q as u32, step, table, width, number);
        at = q + 1;
    }
}
