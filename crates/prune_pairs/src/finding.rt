//! The least transition that is better than a given one.

ghost use Rattle.std.specs.Prelude.{◌≡◌, ◌+◌, ◌*◌, ◌<◌, ◌≤◌, ◌⊎◌, ℕ, length, IfSome, IfNone};
ghost use Rattle.auto_core.specs.Automaton.{IsAutomaton, trans_at};
ghost use Rattle.auto_core.specs.Game.{Holds};
ghost use Rattle.auto_core.specs.Pruning.{IsBetterAt, HasBetter};
ghost use Rattle.prune_pairs.specs.Least.{IsLeastOf, HasNone, IsTransition, HasNoTransition, AreSuccessorsFrom, IsLeastBetter};

use crate::comparing::{at_source, better};
use auto_core::{Auto, Span};
use bit_rel::Rel;
use bit_rows::next_bit;

/// The least transition of the range that is better than `t`.
fn first_within(
    automaton: &Auto,
    pair: u32,
    back: &Rel,
    ahead: &Rel,
    t: u32,
    span: Span,
) -> Option<u32>
    requires pair_from { 1 ≤ pair }
    requires pair_upto { pair ≤ 4 }
    requires back { ¬ (pair ≡ 1) → back.now.size ≡ automaton.now.states }
    requires ahead { ¬ (pair ≡ 2) → ahead.now.size ≡ automaton.now.states }
    requires t { t < length automaton.now.transitions }
    requires within { span.end ≤ length automaton.now.transitions }
    ensures some { IfSome result
        (IsLeastOf (λ u. (span.begin ≤ u) × (u < span.end))
        (IsBetterAt automaton.now pair (Holds back.now.pairs) (Holds ahead.now.pairs) t)) }
    ensures none { IfNone result
        (HasNone (λ u. (span.begin ≤ u) × (u < span.end))
        (IsBetterAt automaton.now pair (Holds back.now.pairs) (Holds ahead.now.pairs) t)) }
{
    for by in span.begin..span.end {
        if better(automaton, pair, back, ahead, t, by) {
            return Some(by);
        }
    }
    None
}

/// The range of the transitions out of the state with the label whose targets are `target` or more:
/// among the successors by a label the targets ascend.
fn successors_from(automaton: &Auto, source: u32, label: u32, target: u32) -> Span
    requires { source < automaton.now.states }
    ensures range { AreSuccessorsFrom automaton.now source label target result.begin result.end }
    ensures valid { IsAutomaton automaton.now }
{
    let span = automaton.successors(source, label);
    let moves = &automaton.transitions()[span.begin as usize..span.end as usize];
    let below = moves.partition_point(|t| t.target < target) as u32;
    Span {
        begin: span.begin + below,
        end: span.end,
    }
}

/// The transition with these three parts.
fn transition_of(automaton: &Auto, source: u32, label: u32, target: u32) -> Option<u32>
    requires { source < automaton.now.states }
    ensures some { IfSome result (IsTransition automaton.now source label target) }
    ensures none { IfNone result (HasNoTransition automaton.now source label target) }
{
    let span = successors_from(automaton, source, label, target);
    if span.begin == span.end {
        return None;
    }
    if automaton.transitions()[span.begin as usize].target == target {
        Some(span.begin)
    } else {
        None
    }
}

/// The transition out of the state that is better than `t` by pair 2. There is at most one: it has
/// the label and the target of `t`.
fn first_to_same_target(
    automaton: &Auto,
    back: &Rel,
    ahead: &Rel,
    t: u32,
    source: u32,
) -> Option<u32>
    requires back { back.now.size ≡ automaton.now.states }
    requires t { t < length automaton.now.transitions }
    requires source { source < automaton.now.states }
    ensures some { IfSome result
        (IsLeastOf (λ u. (trans_at automaton.now u).source ≡ source)
        (IsBetterAt automaton.now 2 (Holds back.now.pairs) (Holds ahead.now.pairs) t)) }
    ensures none { IfNone result
        (HasNone (λ u. (trans_at automaton.now u).source ≡ source)
        (IsBetterAt automaton.now 2 (Holds back.now.pairs) (Holds ahead.now.pairs) t)) }
{
    let step = automaton.transitions()[t as usize];
    let Some(by) = transition_of(automaton, source, step.label, step.target) else {
        return None;
    };
    if better(automaton, 2, back, ahead, t, by) {
        Some(by)
    } else {
        None
    }
}

/// The least transition out of the state that is better than `t`: among those with the label of
/// `t`.
fn first_successor(
    automaton: &Auto,
    pair: u32,
    back: &Rel,
    ahead: &Rel,
    t: u32,
    source: u32,
) -> Option<u32>
    requires pair_from { 1 ≤ pair }
    requires pair_upto { pair ≤ 4 }
    requires back { ¬ (pair ≡ 1) → back.now.size ≡ automaton.now.states }
    requires ahead { ¬ (pair ≡ 2) → ahead.now.size ≡ automaton.now.states }
    requires t { t < length automaton.now.transitions }
    requires source { source < automaton.now.states }
    ensures some { IfSome result
        (IsLeastOf (λ u. (trans_at automaton.now u).source ≡ source)
        (IsBetterAt automaton.now pair (Holds back.now.pairs) (Holds ahead.now.pairs) t)) }
    ensures none { IfNone result
        (HasNone (λ u. (trans_at automaton.now u).source ≡ source)
        (IsBetterAt automaton.now pair (Holds back.now.pairs) (Holds ahead.now.pairs) t)) }
{
    let label = automaton.transitions()[t as usize].label;
    let span = automaton.successors(source, label);
    first_within(automaton, pair, back, ahead, t, span)
}

/// The least transition out of the state that is better than `t`.
fn first_out_of(
    automaton: &Auto,
    pair: u32,
    back: &Rel,
    ahead: &Rel,
    t: u32,
    source: u32,
) -> Option<u32>
    requires pair_from { 1 ≤ pair }
    requires pair_upto { pair ≤ 4 }
    requires back { ¬ (pair ≡ 1) → back.now.size ≡ automaton.now.states }
    requires ahead { ¬ (pair ≡ 2) → ahead.now.size ≡ automaton.now.states }
    requires t { t < length automaton.now.transitions }
    requires source { source < automaton.now.states }
    ensures some { IfSome result
        (IsLeastOf (λ u. (trans_at automaton.now u).source ≡ source)
        (IsBetterAt automaton.now pair (Holds back.now.pairs) (Holds ahead.now.pairs) t)) }
    ensures none { IfNone result
        (HasNone (λ u. (trans_at automaton.now u).source ≡ source)
        (IsBetterAt automaton.now pair (Holds back.now.pairs) (Holds ahead.now.pairs) t)) }
{
    match pair {
        2 => first_to_same_target(automaton, back, ahead, t, source),
        _ => first_successor(automaton, pair, back, ahead, t, source),
    }
}

/// The same for pairs 2 to 4: only a state that the pair relates to the source of `t` has such
/// transitions.
fn first_out_of_related(
    automaton: &Auto,
    pair: u32,
    back: &Rel,
    ahead: &Rel,
    t: u32,
    source: u32,
) -> Option<u32>
    requires pair_from { 2 ≤ pair }
    requires pair_upto { pair ≤ 4 }
    requires back { back.now.size ≡ automaton.now.states }
    requires ahead { ¬ (pair ≡ 2) → ahead.now.size ≡ automaton.now.states }
    requires t { t < length automaton.now.transitions }
    requires source { source < automaton.now.states }
    ensures some { IfSome result
        (IsLeastOf (λ u. (trans_at automaton.now u).source ≡ source)
        (IsBetterAt automaton.now pair (Holds back.now.pairs) (Holds ahead.now.pairs) t)) }
    ensures none { IfNone result
        (HasNone (λ u. (trans_at automaton.now u).source ≡ source)
        (IsBetterAt automaton.now pair (Holds back.now.pairs) (Holds ahead.now.pairs) t)) }
{
    let from = automaton.transitions()[t as usize].source;
    if at_source(pair, back, from, source) {
        first_out_of(automaton, pair, back, ahead, t, source)
    } else {
        None
    }
}

/// The least transition that is better than `t`, for pairs 2 to 4: out of the states that the row
/// of the source of `t` holds, in order, since transitions are sorted by source.
fn first_by_source(automaton: &Auto, pair: u32, back: &Rel, ahead: &Rel, t: u32) -> Option<u32>
    requires pair_from { 2 ≤ pair }
    requires pair_upto { pair ≤ 4 }
    requires back { back.now.size ≡ automaton.now.states }
    requires ahead { ¬ (pair ≡ 2) → ahead.now.size ≡ automaton.now.states }
    requires t { t < length automaton.now.transitions }
    ensures some { IfSome result
        (IsLeastBetter automaton.now pair (Holds back.now.pairs) (Holds ahead.now.pairs) t) }
    ensures none { IfNone result
        (HasBetter automaton.now pair (Holds back.now.pairs) (Holds ahead.now.pairs) t → ⊥) }
{
    let row = back.row(automaton.transitions()[t as usize].source);
    let mut at = 0;
    while let Some(source) = next_bit(row, at) {
        match first_out_of_related(automaton, pair, back, ahead, t, source as u32) {
            Some(by) => return Some(by),
            None => {}
        }
        at = source + 1;
    }
    None
}

/// The least transition that is better than `t`, for pair 1: among those out of the same state.
fn first_beside(automaton: &Auto, back: &Rel, ahead: &Rel, t: u32) -> Option<u32>
    requires ahead { ahead.now.size ≡ automaton.now.states }
    requires t { t < length automaton.now.transitions }
    ensures some { IfSome result
        (IsLeastBetter automaton.now 1 (Holds back.now.pairs) (Holds ahead.now.pairs) t) }
    ensures none { IfNone result
        (HasBetter automaton.now 1 (Holds back.now.pairs) (Holds ahead.now.pairs) t → ⊥) }
{
    let source = automaton.transitions()[t as usize].source;
    first_out_of(automaton, 1, back, ahead, t, source)
}

/// The least transition that is better than `t`.
pub fn first_better(automaton: &Auto, pair: u32, back: &Rel, ahead: &Rel, t: u32) -> Option<u32>
    requires pair_from { 1 ≤ pair }
    requires pair_upto { pair ≤ 4 }
    requires back { ¬ (pair ≡ 1) → back.now.size ≡ automaton.now.states }
    requires ahead { ¬ (pair ≡ 2) → ahead.now.size ≡ automaton.now.states }
    requires t { t < length automaton.now.transitions }
    ensures some { IfSome result
        (IsLeastBetter automaton.now pair (Holds back.now.pairs) (Holds ahead.now.pairs) t) }
    ensures none { IfNone result
        (HasBetter automaton.now pair (Holds back.now.pairs) (Holds ahead.now.pairs) t → ⊥) }
{
    match pair {
        1 => first_beside(automaton, back, ahead, t),
        _ => first_by_source(automaton, pair, back, ahead, t),
    }
}
