//! The greatest forward relation and its closure.

ghost use Rattle.std.specs.Prelude.{◌≡◌, ◌≤◌, IfOk};
ghost use Rattle.auto_core.specs.Game.{IsGreatestForward};
ghost use Rattle.bit_rel.specs.Relation.{IsPreorder};
ghost use Rattle.direct_sim.specs.Preorders.{IsGreatestForwardClosed};

use auto_core::{Auto, Memory};
use bit_rel::Rel;
use look_round::Forward;
use std::alloc::Global;

/// The greatest forward relation on the automaton's states at this lookahead. (Clemente and Mayr,
/// lookahead simulation.)
pub fn relation(alloc: Global, automaton: &Auto, look: u32) -> Result<Rel, Memory>
    requires look_from { 1 ≤ look }
    requires look_upto { look ≤ 6 }
    ensures size { IfOk result (λ r. r.size ≡ automaton.now.states) }
    ensures greatest { IfOk result (λ r. IsGreatestForward automaton.now look r.pairs) }
{
    look_game::greatest(alloc, &Forward, automaton, look)
}

/// Its reflexive and transitive closure on the states.
pub fn preorder(alloc: Global, automaton: &Auto, look: u32) -> Result<Rel, Memory>
    requires look_from { 1 ≤ look }
    requires look_upto { look ≤ 6 }
    ensures size { IfOk result (λ r. r.size ≡ automaton.now.states) }
    ensures closure { IfOk result (IsGreatestForwardClosed automaton.now look) }
    ensures preorder { IfOk result (λ r. IsPreorder automaton.now.states r.pairs) }
{
    let mut rel = relation(alloc, automaton, look)?;
    rel.close();
    Ok(rel)
}
