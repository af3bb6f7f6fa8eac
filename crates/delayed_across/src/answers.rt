//! Whether a pair keeps the rules of a delayed simulation.

ghost use Rattle.std.specs.Prelude.{◌≡◌, ◌<◌, ◌↔◌, IsTrue, IfSome, IfNone};
ghost use Rattle.delayed_game.specs.Settling.{IsAnsweredIn, AnswersAll};
ghost use Rattle.delayed_laws.specs.Listed.{place_pairs, AreDelayedAscending};
ghost use Rattle.delayed_across.specs.Answered.{bound_of, HoldsBelow, IsOfStates, HasRightRank, KeepsAnswers};
ghost use Rattle.delayed_across.specs.Reached.{IsAnswerBy};

use crate::lookup::number_below;
use auto_core::{Auto, Trans};
use delayed_laws::DelayedPair;

/// The number of the pair with which the state first answers the move: the pair of the least state
/// that answers it.
pub(crate) fn first_answer(
    second: &Auto,
    pairs: &[DelayedPair],
    bound: Option<u32>,
    right: u32,
    step: Trans,
) -> Option<usize>
    requires ascending { AreDelayedAscending pairs.now }
    requires state { right < second.now.states }
    ensures some { IfSome
        result (IsAnswerBy second.now pairs.now bound right step.label step.target) }
    ensures none { IfNone result
        (IsAnsweredIn second.now (HoldsBelow (place_pairs pairs.now) bound) right step.label
        step.target → ⊥) }
{
    let span = second.successors(right, step.label);
    for u in span.begin..span.end {
        let target = second.transitions()[u as usize].target;
        match number_below(pairs, step.target, target, bound) {
            Some(at) => return Some(at),
            None => {}
        }
    }
    None
}

/// Tells whether the state answers the move with a pair of the list, below the bound if there is
/// one.
fn is_answered(
    second: &Auto,
    pairs: &[DelayedPair],
    bound: Option<u32>,
    right: u32,
    step: Trans,
) -> bool
    requires ascending { AreDelayedAscending pairs.now }
    requires state { right < second.now.states }
    ensures { IsTrue result
        ↔ IsAnsweredIn second.now (HoldsBelow (place_pairs pairs.now) bound) right step.label
        step.target }
{
    match first_answer(second, pairs, bound, right, step) {
        Some(_) => true,
        None => false,
    }
}

/// Tells whether the right state answers each move of the left one so.
fn answers_all(
    first: &Auto,
    second: &Auto,
    pairs: &[DelayedPair],
    bound: Option<u32>,
    pair: DelayedPair,
) -> bool
    requires ascending { AreDelayedAscending pairs.now }
    requires states { IsOfStates first.now second.now pair }
    ensures { IsTrue result
        ↔ AnswersAll first.now second.now (HoldsBelow (place_pairs pairs.now) bound) pair.left
        pair.right }
{
    let span = first.outgoing(pair.left);
    for t in span.begin..span.end {
        let step = first.transitions()[t as usize];
        if !is_answered(second, pairs, bound, pair.right, step) {
            return false;
        }
    }
    true
}

/// Tells whether the pair has a rank if it has to, and may have it.
fn has_right_rank(first: &Auto, second: &Auto, pair: DelayedPair) -> bool
    requires { IsOfStates first.now second.now pair }
    ensures { IsTrue result ↔ HasRightRank first.now second.now pair }
{
    match pair.rank {
        None => !first.accepting(pair.left),
        Some(rank) => rank != 0 || second.accepting(pair.right),
    }
}

/// What the rank of an answer has to be below, if it needs a rank.
pub(crate) fn bound_of(rank: Option<u32>) -> Option<u32>
    ensures { result ≡ bound_of rank }
{
    match rank {
        None => None,
        Some(own) => { if own == 0 { None } else { Some(own) } }
    }
}

/// Tells whether the pair has a right rank and its moves are answered.
pub(crate) fn keeps_answers(
    first: &Auto,
    second: &Auto,
    pairs: &[DelayedPair],
    pair: DelayedPair,
) -> bool
    requires ascending { AreDelayedAscending pairs.now }
    requires states { IsOfStates first.now second.now pair }
    ensures { IsTrue result ↔ KeepsAnswers first.now second.now (place_pairs pairs.now) pair }
{
    if !has_right_rank(first, second, pair) {
        return false;
    }
    answers_all(first, second, pairs, bound_of(pair.rank), pair)
}
