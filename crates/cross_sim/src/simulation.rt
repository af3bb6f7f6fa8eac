//! The greatest cross relation.

ghost use Rattle.std.specs.Prelude.{◌≡◌, ◌+◌, ◌^◌, ◌<◌, ◌≤◌, length, IfOk};
ghost use Rattle.cross_sim.specs.Cross.{IsGreatestSideBySide};
ghost use Rattle.cross_sim.specs.Sides.{IsSideBySide, LeavesRowAcross, LeavesAcross};

use crate::across::Across;
use auto_core::{Auto, Memory, of_parts};
use auto_ops::{add_accepting, add_shifted};
use ba_format::Joined;
use bit_rel::Rel;
use std::alloc::Global;

/// The two automata side by side in one, with no move between them: the first's states, and then
/// the second's. It starts in the first's initial state.
pub(crate) fn side_by_side(alloc: Global, first: &Auto, second: &Auto) -> Result<Auto, Memory>
    requires states { first.now.states + second.now.states < 2 ^ 32 }
    requires transitions { length first.now.transitions + length second.now.transitions < 2 ^ 32 }
    requires labels { first.now.labels ≡ second.now.labels }
    ensures { IfOk result (IsSideBySide first.now second.now) }
{
    let offset = first.states();
    let mut transitions = Vec::new(alloc);
    add_shifted(&mut transitions, first, 0)?;
    add_shifted(&mut transitions, second, offset)?;
    let mut accepting = Vec::new(alloc);
    add_accepting(&mut accepting, first, 0)?;
    add_accepting(&mut accepting, second, offset)?;
    let states = offset + second.states();
    of_parts(
        alloc,
        states,
        first.labels(),
        first.initial(),
        &transitions,
        &accepting,
    )
}

/// Takes away the pairs of `p` with the first `firsts` states.
fn leave_row_across(rel: &mut Rel, p: u32, firsts: u32)
    requires state { p < rel.old.size }
    requires firsts { firsts ≤ rel.old.size }
    ensures { LeavesRowAcross p firsts rel.old rel.new }
{
    for q in 0..firsts {
        rel.clear(p, q);
    }
}

/// Takes away the pairs of two of the first `firsts` states.
fn leave_across(rel: &mut Rel, firsts: u32)
    requires firsts { firsts ≤ rel.old.size }
    ensures { LeavesAcross firsts firsts rel.old rel.new }
{
    for p in 0..firsts {
        leave_row_across(rel, p, firsts);
    }
}

/// The greatest cross relation at this lookahead, on the first automaton's states followed by the
/// second's: the second's state q is the number a + q where the first has a states. (Clemente and
/// Mayr, lookahead simulation.)
pub fn relation(alloc: Global, pair: &Joined, look: u32) -> Result<Rel, Memory>
    requires states { pair.now.first.states + pair.now.second.states < 2 ^ 32 }
    requires transitions { length pair.now.first.transitions + length pair.now.second.transitions
        < 2 ^ 32 }
    requires first_labels { pair.now.first.labels ≡ length pair.now.labels }
    requires second_labels { pair.now.second.labels ≡ length pair.now.labels }
    requires look_from { 1 ≤ look }
    requires look_upto { look ≤ 6 }
    ensures size { IfOk result (λ r. r.size ≡ pair.now.first.states + pair.now.second.states) }
    ensures greatest { IfOk
        result (λ r. IsGreatestSideBySide pair.now.first pair.now.second look r.pairs) }
{
    let both = side_by_side(alloc, &pair.first, &pair.second)?;
    let side = Across {
        first_states: pair.first.states(),
    };
    let mut rel = look_game::greatest(alloc, &side, &both, look)?;
    leave_across(&mut rel, pair.first.states());
    Ok(rel)
}
