//! A first look at a pair that has to stay: where it is lost, it is mostly lost by few pairs.

ghost use Rattle.std.specs.Prelude.{◌≡◌, ◌<◌, ◌≤◌, ◌↔◌, ℕ, List, false, IsTrue, IfOk, IfSome};
ghost use Rattle.auto_core.specs.Game.{ArePairsBelow, Holds, Stable};
ghost use Rattle.look_game.specs.Asked.{IsLost};

use crate::losing::played_on;
use crate::rounds::matching;
use auto_core::{Auto, Memory};
use bit_rel::Rel;
use look_round::Side;
use std::alloc::Global;

/// A pair of states.
#[derive(Clone, Copy, Debug)]
pub struct Pair {
    /// The one where Spoiler is.
    pub left: u32,
    /// The one where Duplicator is.
    pub right: u32,
}

/// Tells whether a pair has to stay and is not there any more.
pub fn is_lost(rel: &Rel, asked: Option<Pair>) -> bool
    requires states { IfSome
        asked (λ pair. (pair.left < rel.now.size) × (pair.right < rel.now.size)) }
    ensures { IsTrue result ↔ IsLost rel.now.pairs asked }
{
    match asked {
        Some(pair) => !rel.get(pair.left, pair.right),
        None => false,
    }
}

/// Tells whether the pair stays where all pairs that match are related and some rounds are played
/// on from it. If not, no stable list has it.
pub fn may_stay<S: Side>(
    alloc: Global,
    side: &S,
    automaton: &Auto,
    look: u32,
    pair: Pair,
) -> Result<bool, Memory>
    requires look_from { 1 ≤ look }
    requires look_upto { look ≤ 6 }
    requires left { pair.left < automaton.now.states }
    requires right { pair.right < automaton.now.states }
    ensures { IfOk result (λ may. may ≡ false → (T : List (ℕ × ℕ))
        → ArePairsBelow automaton.now.states automaton.now.states T
        → Stable (S.goes side.now automaton.now) (S.goes side.now automaton.now) (S.matches side.now automaton.now) look (Holds T)
        → Holds T pair.left pair.right
        → ⊥) }
{
    let all = matching(alloc, side, automaton)?;
    let rel = played_on(alloc, side, automaton, look, pair, all)?;
    Ok(rel.get(pair.left, pair.right))
}
