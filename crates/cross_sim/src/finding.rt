//! The cross relation that shows an inclusion.

ghost use Rattle.std.specs.Prelude.{◌≡◌, ◌+◌, ◌^◌, ◌<◌, ◌≤◌, length, None, IfOk, IfSome};
ghost use Rattle.auto_core.specs.Game.{Holds};
ghost use Rattle.cert_text.specs.declared.cross.Cross.{Cross};
ghost use Rattle.cross_sim.specs.Rules.{pairs_across};
ghost use Rattle.cross_sim.specs.Written.{IsCrossOfGreatest};

use crate::across::Across;
use crate::simulation::side_by_side;
use crate::written::cross_within;
use auto_core::Memory;
use ba_format::Joined;
use cert_text::Cross;
use look_game::greatest_with;
use std::alloc::Global;

/// The cross relation that is written at this lookahead, if it has the pair of the initial states,
/// and None where it has not. The search ends once that pair is lost.
pub fn find_cross(alloc: Global, pair: &Joined, look: u32) -> Result<Option<Cross>, Memory>
    requires first_few { pair.now.first.states ≤ 2048 }
    requires second_few { pair.now.second.states ≤ 512 }
    requires transitions { length pair.now.first.transitions + length pair.now.second.transitions
        < 2 ^ 32 }
    requires labels { length pair.now.labels ≤ 512 }
    requires first_labels { pair.now.first.labels ≡ length pair.now.labels }
    requires second_labels { pair.now.second.labels ≡ length pair.now.labels }
    requires look_from { 1 ≤ look }
    requires look_upto { look ≤ 6 }
    ensures of { IfOk result (λ found. IfSome found (IsCrossOfGreatest pair.now look)) }
    ensures has { IfOk
        result (λ found.
        IfSome found (λ cross.
        Holds (pairs_across cross) pair.now.first.initial pair.now.second.initial)) }
    ensures lacks { IfOk result (λ found. found ≡ None → (cross : Cross)
        → IsCrossOfGreatest pair.now look cross
        → Holds (pairs_across cross) pair.now.first.initial pair.now.second.initial
        → ⊥) }
{
    let both = side_by_side(alloc, &pair.first, &pair.second)?;
    let firsts = pair.first.states();
    let side = Across {
        first_states: firsts,
    };
    let left = pair.first.initial();
    let right = firsts + pair.second.initial();
    match greatest_with(alloc, &side, &both, look, left, right)? {
        Some(rel) => Ok(Some(cross_within(alloc, pair, look, &rel)?)),
        None => Ok(None),
    }
}
