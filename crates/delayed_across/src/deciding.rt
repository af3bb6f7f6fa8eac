//! Whether there is a delayed simulation.

ghost use Rattle.std.specs.Prelude.{◌≡◌, ◌+◌, ◌*◌, ◌<◌, ◌^◌, ◌↔◌, true, IsTrue, IfOk};
ghost use Rattle.auto_core.specs.Automaton.{IsAutomaton};
ghost use Rattle.auto_core.specs.Accept.{Includes};
ghost use Rattle.auto_core.specs.declared.parts.Mode.TheVariants.{Buchi};
ghost use Rattle.delayed_laws.specs.Greatest.{IsDelayedSimulated};

use auto_core::{Auto, Memory, rows};
use delayed_game::{Board, play};
use std::alloc::Global;

/// Tells whether there is a delayed simulation of the first automaton by the second; then the
/// second accepts each lasso that the first accepts. No list is made.
pub fn is_delayed(alloc: Global, first: &Auto, second: &Auto) -> Result<bool, Memory>
    requires few { first.now.states * second.now.states + 2 < 2 ^ 32 }
    requires labels { first.now.labels ≡ second.now.labels }
    ensures told { IfOk result (λ yes. IsTrue yes ↔ IsDelayedSimulated first.now second.now) }
    ensures included { IfOk result (λ yes. yes ≡ true → Includes first.now second.now Buchi) }
{
    let mut board = Board::full(alloc, first.states(), second.states())?;
    let _ranks = play(alloc, first, second, &mut board)?;
    Ok(rows::has_bit(board.row(first.initial()), second.initial() as usize))
}
