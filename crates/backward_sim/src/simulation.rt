//! The greatest backward relation and its closure.

ghost use Rattle.std.specs.Prelude.{◌≡◌, ◌≤◌, IfOk};
ghost use Rattle.auto_core.specs.Game.{IsGreatestBackward};
ghost use Rattle.bit_rel.specs.Relation.{IsPreorder};
ghost use Rattle.backward_sim.specs.Preorders.{IsGreatestBackwardClosed};

use auto_core::{Auto, Memory};
use bit_rel::Rel;
use look_round::Backward;
use std::alloc::Global;

/// The greatest backward relation on the automaton's states at this lookahead. (Clemente and Mayr,
/// lookahead simulation.)
pub fn relation(alloc: Global, automaton: &Auto, look: u32) -> Result<Rel, Memory>
    requires look_from { 1 ≤ look }
    requires look_upto { look ≤ 6 }
    ensures size { IfOk result (λ r. r.size ≡ automaton.now.states) }
    ensures greatest { IfOk result (λ r. IsGreatestBackward automaton.now look r.pairs) }
{
    look_game::greatest(alloc, &Backward, automaton, look)
}

/// Its reflexive and transitive closure on the states.
pub fn preorder(alloc: Global, automaton: &Auto, look: u32) -> Result<Rel, Memory>
    requires look_from { 1 ≤ look }
    requires look_upto { look ≤ 6 }
    ensures size { IfOk result (λ r. r.size ≡ automaton.now.states) }
    ensures closure { IfOk result (IsGreatestBackwardClosed automaton.now look) }
    ensures preorder { IfOk result (λ r. IsPreorder automaton.now.states r.pairs) }
{
    let mut rel = relation(alloc, automaton, look)?;
    rel.close();
    Ok(rel)
}
