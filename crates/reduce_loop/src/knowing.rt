//! The greatest relations of an automaton, each found once.

ghost use Rattle.std.specs.Prelude.{◌≡◌, ◌≤◌, None, IfOk, IfSome};
ghost use Rattle.auto_core.specs.Game.{IsGreatestForward, IsGreatestBackward};
ghost use Rattle.reduce_loop.specs.Known.{AreGreatestOn};
ghost use Rattle.reduce_loop.specs.Logs.{IsRelationOf, IsBackOf, IsAheadOf};

use auto_core::{Auto, Memory};
use bit_rel::Rel;
use look_game::greatest_at_one;
use look_round::{Backward, Forward};
use std::alloc::Global;

/// The greatest relations of an automaton that were found so far, at the lookahead of the reduction
/// and at lookahead 1.
#[derive(Debug, Drop)]
pub(crate) struct Known {
    pub(crate) forward: Option<Rel>,
    pub(crate) backward: Option<Rel>,
    pub(crate) forward_at_one: Option<Rel>,
    pub(crate) backward_at_one: Option<Rel>,
}

/// Nothing is known.
pub(crate) fn nothing_known() -> Known
    ensures { result
        ≡ record {
          forward = None;
          backward = None;
          forward_at_one = None;
          backward_at_one = None;
        } }
{
    Known {
        forward: None,
        backward: None,
        forward_at_one: None,
        backward_at_one: None,
    }
}

/// The greatest forward relation, which is kept.
pub(crate) fn forward(
    alloc: Global,
    automaton: &Auto,
    kept: &mut Option<Rel>,
    look: u32,
) -> Result<Rel, Memory>
    requires look_from { 1 ≤ look }
    requires look_upto { look ≤ 6 }
    requires known { IfSome kept.old
        (IsRelationOf automaton.now (IsGreatestForward automaton.now look)) }
    ensures greatest { IfOk result
        (IsRelationOf automaton.now (IsGreatestForward automaton.now look)) }
    ensures known { IfOk
        result (λ _.
        IfSome kept.new (IsRelationOf automaton.now (IsGreatestForward automaton.now look))) }
{
    match kept {
        Some(rel) => return rel.copied(alloc),
        None => {}
    }
    let rel = direct_sim::relation(alloc, automaton, look)?;
    *kept = Some(rel.copied(alloc)?);
    Ok(rel)
}

/// The greatest backward relation, which is kept.
pub(crate) fn backward(
    alloc: Global,
    automaton: &Auto,
    kept: &mut Option<Rel>,
    look: u32,
) -> Result<Rel, Memory>
    requires look_from { 1 ≤ look }
    requires look_upto { look ≤ 6 }
    requires known { IfSome kept.old
        (IsRelationOf automaton.now (IsGreatestBackward automaton.now look)) }
    ensures greatest { IfOk result
        (IsRelationOf automaton.now (IsGreatestBackward automaton.now look)) }
    ensures known { IfOk
        result (λ _.
        IfSome kept.new (IsRelationOf automaton.now (IsGreatestBackward automaton.now look))) }
{
    match kept {
        Some(rel) => return rel.copied(alloc),
        None => {}
    }
    let rel = backward_sim::relation(alloc, automaton, look)?;
    *kept = Some(rel.copied(alloc)?);
    Ok(rel)
}

/// The greatest forward relation at lookahead 1, which is kept. It is sought inside the one at the
/// lookahead of the reduction, which is kept too.
pub(crate) fn forward_at_one(
    alloc: Global,
    automaton: &Auto,
    kept: &mut Option<Rel>,
    wider: &mut Option<Rel>,
    look: u32,
) -> Result<Rel, Memory>
    requires look_from { 1 ≤ look }
    requires look_upto { look ≤ 6 }
    requires known { IfSome kept.old
        (IsRelationOf automaton.now (IsGreatestForward automaton.now 1)) }
    requires wider { IfSome wider.old
        (IsRelationOf automaton.now (IsGreatestForward automaton.now look)) }
    ensures greatest { IfOk result
        (IsRelationOf automaton.now (IsGreatestForward automaton.now 1)) }
    ensures known { IfOk
        result (λ _.
        IfSome kept.new (IsRelationOf automaton.now (IsGreatestForward automaton.now 1))) }
    ensures wider { IfOk
        result (λ _.
        IfSome wider.new (IsRelationOf automaton.now (IsGreatestForward automaton.now look))) }
{
    match kept {
        Some(rel) => return rel.copied(alloc),
        None => {}
    }
    let found = forward(alloc, automaton, wider, look)?;
    let rel = greatest_at_one(alloc, &Forward, automaton, look, found)?;
    *kept = Some(rel.copied(alloc)?);
    Ok(rel)
}

/// The greatest backward relation at lookahead 1, which is kept. It is sought inside the one at the
/// lookahead of the reduction, which is kept too.
fn backward_at_one(
    alloc: Global,
    automaton: &Auto,
    kept: &mut Option<Rel>,
    wider: &mut Option<Rel>,
    look: u32,
) -> Result<Rel, Memory>
    requires look_from { 1 ≤ look }
    requires look_upto { look ≤ 6 }
    requires known { IfSome kept.old
        (IsRelationOf automaton.now (IsGreatestBackward automaton.now 1)) }
    requires wider { IfSome wider.old
        (IsRelationOf automaton.now (IsGreatestBackward automaton.now look)) }
    ensures greatest { IfOk result
        (IsRelationOf automaton.now (IsGreatestBackward automaton.now 1)) }
    ensures known { IfOk
        result (λ _.
        IfSome kept.new (IsRelationOf automaton.now (IsGreatestBackward automaton.now 1))) }
    ensures wider { IfOk
        result (λ _.
        IfSome wider.new (IsRelationOf automaton.now (IsGreatestBackward automaton.now look))) }
{
    match kept {
        Some(rel) => return rel.copied(alloc),
        None => {}
    }
    let found = backward(alloc, automaton, wider, look)?;
    let rel = greatest_at_one(alloc, &Backward, automaton, look, found)?;
    *kept = Some(rel.copied(alloc)?);
    Ok(rel)
}

/// The backward relation of the pair, if it has one.
pub(crate) fn back_of(
    alloc: Global,
    automaton: &Auto,
    known: &mut Known,
    pair: u32,
    look: u32,
) -> Result<Option<Rel>, Memory>
    requires look_from { 1 ≤ look }
    requires look_upto { look ≤ 6 }
    requires known { AreGreatestOn automaton.now look known.old }
    ensures back { IfOk result (IsBackOf automaton.now pair look) }
    ensures known { IfOk result (λ _. AreGreatestOn automaton.now look known.new) }
{
    match pair {
        1 => Ok(None),
        4 => Ok(Some(backward_at_one(
            alloc,
            automaton,
            &mut known.backward_at_one,
            &mut known.backward,
            look,
        )?)),
        _ => Ok(Some(backward(alloc, automaton, &mut known.backward, look)?)),
    }
}

/// The forward relation of the pair, if it has one.
pub(crate) fn ahead_of(
    alloc: Global,
    automaton: &Auto,
    known: &mut Known,
    pair: u32,
    look: u32,
) -> Result<Option<Rel>, Memory>
    requires look_from { 1 ≤ look }
    requires look_upto { look ≤ 6 }
    requires known { AreGreatestOn automaton.now look known.old }
    ensures ahead { IfOk result (IsAheadOf automaton.now pair look) }
    ensures known { IfOk result (λ _. AreGreatestOn automaton.now look known.new) }
{
    match pair {
        2 => Ok(None),
        3 => Ok(Some(forward_at_one(
            alloc,
            automaton,
            &mut known.forward_at_one,
            &mut known.forward,
            look,
        )?)),
        _ => Ok(Some(forward(alloc, automaton, &mut known.forward, look)?)),
    }
}
