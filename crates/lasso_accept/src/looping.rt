//! The states from which a loop is accepted.

ghost use Rattle.std.specs.Prelude.{◌+◌, ◌/◌, ◌<◌, ◌↔◌, ℕ, IfOk};
ghost use Rattle.auto_core.specs.Rows.{HasBit};
ghost use Rattle.set_rows.specs.Sets.{IsRow};
ghost use Rattle.lasso_accept.specs.Looping.{AcceptsLoopFrom, AreRests};
ghost use Rattle.lasso_accept.specs.Tails.{AreTails};

use crate::guide;
use crate::tails::{Tail, planes_by};
use auto_core::{Auto, Lasso, Memory, rows};
use bit_rows::{Room, mark_loops};
use std::alloc::Global;

/// The states from which the loop, repeated for ever, is accepted. From none an empty loop is.
pub fn accepts_loop_from(alloc: Global, automaton: &Auto, turn: &[u32]) -> Result<Vec<u64>, Memory>
    ensures row { IfOk result (λ row. IsRow automaton.now.states row.items) }
    ensures members { IfOk result (λ row. (p : ℕ)
        → HasBit row.items p
        ↔ ((p < automaton.now.states) × AcceptsLoopFrom automaton.now turn.now p)) }
{
    loop_row(alloc, automaton, turn, &[])
}

/// The states from which the loop, repeated for ever, is accepted, by tables that are kept of its
/// ends.
pub(crate) fn loop_row(
    alloc: Global,
    automaton: &Auto,
    turn: &[u32],
    kept: &[Tail],
) -> Result<Vec<u64>, Memory>
    requires { AreTails automaton.now turn.now kept.now }
    ensures row { IfOk result (λ row. IsRow automaton.now.states row.items) }
    ensures members { IfOk result (λ row. (p : ℕ)
        → HasBit row.items p
        ↔ ((p < automaton.now.states) × AcceptsLoopFrom automaton.now turn.now p)) }
{
    let states = automaton.states();
    let width = rows::words_for(states);
    let table = planes_by(alloc, automaton, turn, width, kept)?;
    let mut out = vec![in alloc; 0; width]?;
    let mut room = Room::new(alloc, states)?;
    mark_loops(&table.any, &table.flagged, states, &mut out, &mut room);
    Ok(out)
}

/// For each place of the lasso's prefix, and for its end, the row of the states from which the rest
/// of the lasso is accepted. The row
/// `looping` has those from which its loop is.
pub fn rests_of(
    alloc: Global,
    automaton: &Auto,
    lasso: &Lasso,
    looping: &[u64],
) -> Result<Vec<u64>, Memory>
    requires row { IsRow automaton.now.states looping.now }
    requires loops { (p : ℕ)
        → HasBit looping.now p
        ↔ ((p < automaton.now.states) × AcceptsLoopFrom automaton.now lasso.now.turn p) }
    ensures { IfOk
        result (λ table.
        AreRests automaton.now lasso.now.prefix lasso.now.turn ((automaton.now.states + 63) / 64)
        table.items) }
{
    let width = rows::words_for(automaton.states());
    let guide = guide::guide_of(alloc, automaton, lasso.prefix.as_slice(), width, looping)?;
    Ok(guide.any)
}
