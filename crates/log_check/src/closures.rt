//! Closures of the relations of a step, if they are stable.

ghost use Rattle.std.specs.Prelude.{◌≡◌, ◌<◌, ◌≤◌, ◌↔◌, [], length, All, IfOk, IsTrue, MatchOption};
ghost use Rattle.auto_core.specs.Game.{Holds, Stable};
ghost use Rattle.auto_core.specs.Pruning.{IsStableBack, IsStableAhead};
ghost use Rattle.cert_value.specs.WellFormed.{blocks_due};
ghost use Rattle.log_check.specs.Blocks.{pairs_of, IsBlockBelow};
ghost use Rattle.log_check.specs.Closures.{IsClosureOf, IsRowJoined, JoinsMembers};
ghost use Rattle.log_check.specs.FirstLog.{back_of, ahead_of};

use crate::blocks::relation_of;
use crate::stability::is_stable;
use auto_core::{Auto, Memory};
use bit_rel::Rel;
use cert_value::RelBlock;
use look_round::{Backward, Forward, Side};
use quotient::Classes;
use std::alloc::Global;

/// The closure of the block's relation; None where that is not stable on the side at the lookahead.
pub(crate) fn stable_closure<S: Side>(
    alloc: Global,
    side: &S,
    automaton: &Auto,
    look: u32,
    block: &RelBlock,
) -> Result<Option<Rel>, Memory>
    requires look_from { 1 ≤ look }
    requires look_upto { look ≤ 6 }
    requires below { IsBlockBelow automaton.now.states block.now }
    ensures { IfOk result (λ found. MatchOption found
        (Stable (S.goes side.now automaton.now) (S.goes side.now automaton.now) (S.matches side.now automaton.now) look (Holds (pairs_of block.now)) → ⊥)
        (λ rel. Stable (S.goes side.now automaton.now) (S.goes side.now automaton.now) (S.matches side.now automaton.now) look (Holds (pairs_of block.now))
        × IsClosureOf automaton.now.states (Holds (pairs_of block.now)) rel)) }
{
    let mut rel = relation_of(alloc, automaton.states(), block)?;
    if !is_stable(alloc, side, automaton, &rel, look)? {
        return Ok(None);
    }
    rel.close();
    Ok(Some(rel))
}

/// Each state with itself alone.
fn equality(alloc: Global, states: u32) -> Result<Rel, Memory>
    ensures { IfOk result (IsClosureOf states (Holds [])) }
{
    let mut rel = Rel::empty(alloc, states)?;
    rel.close();
    Ok(rel)
}

/// The closure of a cut's backward relation; None where that is not stable. Pair 1 has none, and
/// asks for equal states.
pub(crate) fn back_closure(
    alloc: Global,
    automaton: &Auto,
    pair: u32,
    look: u32,
    blocks: &[RelBlock],
) -> Result<Option<Rel>, Memory>
    requires look_from { 1 ≤ look }
    requires look_upto { look ≤ 6 }
    requires pair { 0 < blocks_due pair }
    requires count { length blocks.now ≡ blocks_due pair }
    requires below { All (IsBlockBelow automaton.now.states) blocks.now }
    ensures { IfOk result (λ found. MatchOption found
        (IsStableBack automaton.now pair look (back_of pair blocks.now) → ⊥)
        (λ rel. IsStableBack automaton.now pair look (back_of pair blocks.now)
        × IsClosureOf automaton.now.states (Holds (back_of pair blocks.now)) rel)) }
{
    match pair {
        1 => Ok(Some(equality(alloc, automaton.states())?)),
        4 => stable_closure(alloc, &Backward, automaton, 1, &blocks[0]),
        _ => stable_closure(alloc, &Backward, automaton, look, &blocks[0]),
    }
}

/// The closure of a cut's forward relation; None where that is not stable. Pair 2 has none, and
/// asks for equal states.
pub(crate) fn ahead_closure(
    alloc: Global,
    automaton: &Auto,
    pair: u32,
    look: u32,
    blocks: &[RelBlock],
) -> Result<Option<Rel>, Memory>
    requires look_from { 1 ≤ look }
    requires look_upto { look ≤ 6 }
    requires pair { 0 < blocks_due pair }
    requires count { length blocks.now ≡ blocks_due pair }
    requires below { All (IsBlockBelow automaton.now.states) blocks.now }
    ensures { IfOk result (λ found. MatchOption found
        (IsStableAhead automaton.now pair look (ahead_of pair blocks.now) → ⊥)
        (λ rel. IsStableAhead automaton.now pair look (ahead_of pair blocks.now)
        × IsClosureOf automaton.now.states (Holds (ahead_of pair blocks.now)) rel)) }
{
    match pair {
        1 => stable_closure(alloc, &Forward, automaton, look, &blocks[0]),
        2 => Ok(Some(equality(alloc, automaton.states())?)),
        3 => stable_closure(alloc, &Forward, automaton, 1, &blocks[1]),
        _ => stable_closure(alloc, &Forward, automaton, look, &blocks[1]),
    }
}

/// Tells whether the state is related to each member of its class.
fn joins_row(rel: &Rel, classes: &Classes, p: u32) -> bool
    requires equal { length classes.now ≡ rel.now.size }
    requires state { p < rel.now.size }
    ensures { IsTrue result ↔ IsRowJoined classes.now rel.now rel.now.size p }
{
    for q in 0..rel.size() {
        if classes.class(p) == classes.class(q) && !rel.get(p, q) {
            return false;
        }
    }
    true
}

/// Tells whether any two members of a class are related.
pub(crate) fn joins_members(rel: &Rel, classes: &Classes) -> bool
    requires { length classes.now ≡ rel.now.size }
    ensures { IsTrue result ↔ JoinsMembers classes.now rel.now rel.now.size }
{
    for p in 0..rel.size() {
        if !joins_row(rel, classes, p) {
            return false;
        }
    }
    true
}
