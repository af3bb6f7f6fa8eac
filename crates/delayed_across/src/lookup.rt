//! How the rank of a pair is found among pairs in order.

ghost use Rattle.std.specs.Prelude.{◌≡◌, ◌<◌, ◌≤◌, ◌↔◌, ℕ, length, IsTrue, IfSome, IfNone};
ghost use Rattle.delayed_game.specs.Across.{HoldsPlacePair};
ghost use Rattle.delayed_laws.specs.Listed.{place_pairs, delayed_at, StandsBefore, AreDelayedAscending};
ghost use Rattle.delayed_across.specs.Answered.{IsRankBelow, HoldsBelow};
ghost use Rattle.delayed_across.specs.Listed.{stands_before, IsNumberOf};

use delayed_laws::DelayedPair;

/// Tells whether the pair stands before the one of these states.
fn is_before(pair: DelayedPair, left: u32, right: u32) -> bool
    ensures { result ≡ stands_before left right pair }
{
    pair.left < left || (pair.left == left && pair.right < right)
}

/// Tells whether each pair stands before all later ones.
pub fn are_ascending(pairs: &[DelayedPair]) -> bool
    ensures { IsTrue result ↔ AreDelayedAscending pairs.now }
{
    for at in 1..pairs.len() {
        let next = pairs[at];
        if !is_before(pairs[at - 1], next.left, next.right) {
            return false;
        }
    }
    true
}

/// Where the pairs start that do not stand before the one of these states.
fn place_of(pairs: &[DelayedPair], left: u32, right: u32) -> usize
    requires { AreDelayedAscending pairs.now }
    ensures within { result ≤ length pairs.now }
    ensures before { (i : ℕ) → i < result → StandsBefore (delayed_at pairs.now i) left right }
    ensures behind { (i : ℕ) → result ≤ i → i < length pairs.now
        → StandsBefore (delayed_at pairs.now i) left right → ⊥ }
{
    pairs.partition_point(|x| is_before(*x, left, right))
}

/// The number of the pair of these states, if the list has the pair.
pub(crate) fn number_of(pairs: &[DelayedPair], left: u32, right: u32) -> Option<usize>
    requires { AreDelayedAscending pairs.now }
    ensures some { IfSome result (IsNumberOf pairs.now left right) }
    ensures none { IfNone result (HoldsPlacePair (place_pairs pairs.now) left right → ⊥) }
{
    let at = place_of(pairs, left, right);
    if at == pairs.len() {
        return None;
    }
    let found = pairs[at];
    if found.left == left && found.right == right {
        Some(at)
    } else {
        None
    }
}

/// Tells whether the list has the pair.
pub(crate) fn has_pair(pairs: &[DelayedPair], left: u32, right: u32) -> bool
    requires { AreDelayedAscending pairs.now }
    ensures { IsTrue result ↔ HoldsPlacePair (place_pairs pairs.now) left right }
{
    match number_of(pairs, left, right) {
        Some(_) => true,
        None => false,
    }
}

/// Tells whether there is no bound, or a rank below it.
fn is_below(rank: Option<u32>, bound: Option<u32>) -> bool
    ensures { IsTrue result ↔ IsRankBelow rank bound }
{
    match bound {
        None => true,
        Some(most) => match rank {
            None => false,
            Some(own) => own < most,
        },
    }
}

/// The number of the pair, if the list has it with a rank below the bound, or if there is no bound.
pub(crate) fn number_below(
    pairs: &[DelayedPair],
    left: u32,
    right: u32,
    bound: Option<u32>,
) -> Option<usize>
    requires { AreDelayedAscending pairs.now }
    ensures some { IfSome
        result
        (λ at.
        IsNumberOf pairs.now left right at × IsRankBelow (delayed_at pairs.now at).rank bound) }
    ensures none { IfNone result (HoldsBelow (place_pairs pairs.now) bound left right → ⊥) }
{
    match number_of(pairs, left, right) {
        Some(at) => if is_below(pairs[at].rank, bound) {
            Some(at)
        } else {
            None
        },
        None => None,
    }
}
