//! The check of pairs with ranks that are given, as a file lists them.

ghost use Rattle.std.specs.Prelude.{◌<◌, ◌↔◌, IsTrue, IfSome, IfNone};
ghost use Rattle.auto_core.specs.Accept.{Includes};
ghost use Rattle.auto_core.specs.declared.parts.Mode.TheVariants.{Buchi};
ghost use Rattle.delayed_game.specs.Across.{AreWithin, IsRightAcross};
ghost use Rattle.delayed_laws.specs.Across.{IsDelayedSimulation};
ghost use Rattle.delayed_laws.specs.Listed.{place_pairs, AreDelayedAscending};
ghost use Rattle.delayed_across.specs.Answered.{IsOfStates, KeepsAnswers};
ghost use Rattle.delayed_across.specs.Refused.{IsFirstNot, IsFirstRefusal};

use crate::answers::keeps_answers;
use crate::lookup::has_pair;
use auto_core::Auto;
use delayed_laws::DelayedPair;

/// The first rule that pairs break. Pairs have their places in the list as numbers, from 0.
#[derive(Clone, Copy, Debug, PartialEq, Eq)]
pub enum DelayedRefusal {
    /// A part of the pair with this number is no state.
    Range(usize),
    /// The pair of the initial states is not there.
    Start,
    /// The pair with this number has no rank and needs one, or may not have rank 0, or a move of
    /// its left state has no answer.
    Answer(usize),
}

/// Tells whether both parts of the pair are states.
fn is_of_states(first: &Auto, second: &Auto, pair: DelayedPair) -> bool
    ensures { IsTrue result ↔ IsOfStates first.now second.now pair }
{
    pair.left < first.states() && pair.right < second.states()
}

/// The number of the first pair that is not of states.
fn out_of_range(first: &Auto, second: &Auto, pairs: &[DelayedPair]) -> Option<usize>
    ensures some { IfSome result (IsFirstNot (IsOfStates first.now second.now) pairs.now) }
    ensures none { IfNone result
        (AreWithin first.now.states second.now.states (place_pairs pairs.now)) }
{
    for at in 0..pairs.len() {
        if !is_of_states(first, second, pairs[at]) {
            return Some(at);
        }
    }
    None
}

/// The number of the first pair that breaks the rule of answers.
fn unanswered(first: &Auto, second: &Auto, pairs: &[DelayedPair]) -> Option<usize>
    requires ascending { AreDelayedAscending pairs.now }
    requires in_range { AreWithin first.now.states second.now.states (place_pairs pairs.now) }
    ensures some { IfSome
        result
        (IsFirstNot (KeepsAnswers first.now second.now (place_pairs pairs.now)) pairs.now) }
    ensures none { IfNone result (IsRightAcross first.now second.now (place_pairs pairs.now)) }
{
    for at in 0..pairs.len() {
        if !keeps_answers(first, second, pairs, pairs[at]) {
            return Some(at);
        }
    }
    None
}

/// Checks that the pairs, ascending, are of states and are a delayed simulation of the first
/// automaton by the second, or tells the first rule that they break: each pair is of states; the
/// pair of the initial states is there; each pair keeps the rule of answers.
pub fn check(first: &Auto, second: &Auto, pairs: &[DelayedPair]) -> Option<DelayedRefusal>
    requires { AreDelayedAscending pairs.now }
    ensures refused { IfSome result (IsFirstRefusal first.now second.now pairs.now) }
    ensures in_range { IfNone result
        (AreWithin first.now.states second.now.states (place_pairs pairs.now)) }
    ensures is { IfNone result
        (IsDelayedSimulation first.now second.now (place_pairs pairs.now)) }
    ensures included { IfNone result (Includes first.now second.now Buchi) }
{
    match out_of_range(first, second, pairs) {
        Some(at) => return Some(DelayedRefusal::Range(at)),
        None => {}
    }
    if !has_pair(pairs, first.initial(), second.initial()) {
        return Some(DelayedRefusal::Start);
    }
    match unanswered(first, second, pairs) {
        Some(at) => Some(DelayedRefusal::Answer(at)),
        None => None,
    }
}
