//! Whether pairs with ranks are a ranked product.

ghost use Rattle.std.specs.Prelude.{◌≡◌, ◌+◌, ◌^◌, ◌<◌, ◌↔◌, length, IsTrue, IfOk, IfErr, IfSome, IfNone};
ghost use Rattle.product_laws.specs.Ranked.{IsDeterministic, HasInitialPair, IsPairOfStates, IsCovered, CoversMoves, RankGoesOn, RankGoesOnBy, RanksGoOn, IsRankedProduct};
ghost use Rattle.product_laws.specs.Ascending.{AreAscending};
ghost use Rattle.ranked_product.specs.Rules.{KeepsRules, BreaksRule, FirstBroken};

use crate::deterministic::{is_deterministic, next_state};
use crate::finding::{has_pair, rank_of};
use auto_core::{Auto, Trans};
use product_laws::RankedPair;

/// The first broken rule of a ranked product, and the item that breaks it.
#[derive(Clone, Copy, Debug, PartialEq, Eq)]
pub struct Refusal {
    /// The rule, from 1.
    pub rule: u32,
    /// The item: 0 for the automata and the initial pair, then the pairs in order.
    pub item: u32,
}

/// Tells whether the list has the pair of the initial states.
fn has_initial_pair(first: &Auto, second: &Auto, pairs: &[RankedPair]) -> bool
    requires { AreAscending pairs.now }
    ensures { IsTrue result ↔ HasInitialPair first.now second.now pairs.now }
{
    has_pair(pairs, first.initial(), second.initial())
}

/// Tells whether the state answers the move and the list has the pair that both lead to.
fn is_covered(second: &Auto, pairs: &[RankedPair], right: u32, step: Trans) -> bool
    requires deterministic { IsDeterministic second.now }
    requires ascending { AreAscending pairs.now }
    requires state { right < second.now.states }
    ensures { IsTrue result ↔ IsCovered second.now pairs.now right step.label step.target }
{
    match next_state(second, right, step.label) {
        Some(target) => has_pair(pairs, step.target, target),
        None => false,
    }
}

/// Tells whether the moves of the pair's left state are so.
fn covers_moves(first: &Auto, second: &Auto, pairs: &[RankedPair], pair: RankedPair) -> bool
    requires deterministic { IsDeterministic second.now }
    requires ascending { AreAscending pairs.now }
    requires states { IsPairOfStates first.now second.now pair }
    ensures { IsTrue result ↔ CoversMoves first.now second.now pairs.now pair }
{
    let span = first.outgoing(pair.left);
    for t in span.begin..span.end {
        let step = first.transitions()[t as usize];
        if !is_covered(second, pairs, pair.right, step) {
            return false;
        }
    }
    true
}

/// Tells whether the rank goes on from `before` to `after`, that of the pair of these states.
fn is_after(first: &Auto, second: &Auto, before: u32, left: u32, right: u32, after: u32) -> bool
    requires left { left < first.now.states }
    requires right { right < second.now.states }
    ensures { IsTrue result ↔ RankGoesOn first.now second.now before left right after }
{
    if second.accepting(right) {
        return true;
    }
    if first.accepting(left) {
        after < before
    } else {
        after <= before
    }
}

/// Tells whether the rank goes on along the move.
fn goes_on(first: &Auto, second: &Auto, pairs: &[RankedPair], pair: RankedPair, step: Trans) -> bool
    requires deterministic { IsDeterministic second.now }
    requires ascending { AreAscending pairs.now }
    requires states { IsPairOfStates first.now second.now pair }
    requires target { step.target < first.now.states }
    ensures { IsTrue result
        ↔ RankGoesOnBy first.now second.now pairs.now pair step.label step.target }
{
    match next_state(second, pair.right, step.label) {
        Some(target) => match rank_of(pairs, step.target, target) {
            Some(after) => is_after(first, second, pair.rank, step.target, target, after),
            None => true,
        },
        None => true,
    }
}

/// Tells whether the rank goes on along each move.
fn ranks_go_on(first: &Auto, second: &Auto, pairs: &[RankedPair], pair: RankedPair) -> bool
    requires deterministic { IsDeterministic second.now }
    requires ascending { AreAscending pairs.now }
    requires states { IsPairOfStates first.now second.now pair }
    ensures { IsTrue result ↔ RanksGoOn first.now second.now pairs.now pair }
{
    let span = first.outgoing(pair.left);
    for t in span.begin..span.end {
        let step = first.transitions()[t as usize];
        if !goes_on(first, second, pairs, pair, step) {
            return false;
        }
    }
    true
}

/// The first rule that the pair breaks, if there is one.
fn broken_rule(first: &Auto, second: &Auto, pairs: &[RankedPair], pair: RankedPair) -> Option<u32>
    requires deterministic { IsDeterministic second.now }
    requires ascending { AreAscending pairs.now }
    ensures kept { IfNone result (KeepsRules first.now second.now pairs.now pair) }
    ensures broken { IfSome result (BreaksRule first.now second.now pairs.now pair) }
{
    if pair.left >= first.states() {
        return Some(3);
    }
    if pair.right >= second.states() {
        return Some(3);
    }
    if !covers_moves(first, second, pairs, pair) {
        return Some(4);
    }
    if !ranks_go_on(first, second, pairs, pair) {
        return Some(5);
    }
    None
}

/// Checks that the pairs with ranks are a ranked product of the two automata, or tells the first
/// broken rule. The rules are: 1, the second automaton is deterministic; 2, the pair of the initial
/// states is there; and of each pair in turn 3, its parts are states; 4, the pairs that its moves
/// lead to are there; 5, the ranks go on along its moves.
pub fn check(first: &Auto, second: &Auto, pairs: &[RankedPair]) -> Result<(), Refusal>
    requires ascending { AreAscending pairs.now }
    requires few { length pairs.now < 2 ^ 32 }
    ensures kept { IfOk result (λ _. IsRankedProduct first.now second.now pairs.now) }
    ensures broken { IfErr result (FirstBroken first.now second.now pairs.now) }
{
    if !is_deterministic(second) {
        return Err(Refusal { rule: 1, item: 0 });
    }
    if !has_initial_pair(first, second, pairs) {
        return Err(Refusal { rule: 2, item: 0 });
    }
    for at in 0..pairs.len() {
        match broken_rule(first, second, pairs, pairs[at]) {
            Some(rule) => {
                return Err(Refusal {
                    rule,
                    item: at as u32 + 1,
                });
            }
            None => {}
        }
    }
    Ok(())
}
