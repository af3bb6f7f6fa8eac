//! Acceptance of a lasso: its prefix leads to a state from which its loop is accepted.

ghost use Rattle.std.specs.Prelude.{◌<◌, ◌↔◌, ℕ, IfOk, IsTrue};
ghost use Rattle.auto_core.specs.Accept.{AcceptsLasso};
ghost use Rattle.auto_core.specs.Rows.{HasBit};
ghost use Rattle.set_rows.specs.Sets.{IsRow};
ghost use Rattle.lasso_accept.specs.Looping.{AcceptsLoopFrom};

use crate::looping::accepts_loop_from;
use auto_core::{Auto, Lasso, Memory};
use bit_rows::meets;
use set_rows::reached;
use std::alloc::Global;

/// Tells whether the automaton accepts the lasso. A lasso with an empty loop is not accepted, nor
/// is one with a letter that no transition of the automaton has. Only memory can be refused.
pub fn accepts_lasso(alloc: Global, automaton: &Auto, lasso: &Lasso) -> Result<bool, Memory>
    ensures { IfOk
        result (λ told. IsTrue told ↔ AcceptsLasso automaton.now lasso.now.prefix lasso.now.turn) }
{
    let looping = accepts_loop_from(alloc, automaton, lasso.turn.as_slice())?;
    is_accepted(alloc, automaton, lasso, &looping)
}

/// Tells whether the automaton accepts the lasso. The row has the states from which its loop is
/// accepted.
pub(crate) fn is_accepted(
    alloc: Global,
    automaton: &Auto,
    lasso: &Lasso,
    looping: &[u64],
) -> Result<bool, Memory>
    requires row { IsRow automaton.now.states looping.now }
    requires loops { (p : ℕ)
        → HasBit looping.now p
        ↔ ((p < automaton.now.states) × AcceptsLoopFrom automaton.now lasso.now.turn p) }
    ensures { IfOk
        result (λ told. IsTrue told ↔ AcceptsLasso automaton.now lasso.now.prefix lasso.now.turn) }
{
    let ends = reached(alloc, automaton, lasso.prefix.as_slice())?;
    Ok(meets(&ends, looping))
}
