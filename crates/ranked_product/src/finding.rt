//! Pairs with ranks in order, and how one of them is found.

ghost use Rattle.std.specs.Prelude.{◌≡◌, ◌<◌, ◌≤◌, ◌↔◌, ℕ, length, IsTrue, IfSome, IfNone};
ghost use Rattle.product_laws.specs.Ranked.{HasRank, HasPair};
ghost use Rattle.product_laws.specs.Ascending.{IsBefore, AreAscending, pair_at};

use product_laws::RankedPair;

/// Tells whether the pair stands before the one of these states.
fn is_before(pair: RankedPair, left: u32, right: u32) -> bool
    ensures { IsTrue result ↔ IsBefore pair left right }
{
    pair.left < left || (pair.left == left && pair.right < right)
}

/// Tells whether each pair stands before all later ones.
pub fn are_ascending(pairs: &[RankedPair]) -> bool
    ensures { IsTrue result ↔ AreAscending pairs.now }
{
    for at in 1..pairs.len() {
        let next = pairs[at];
        if !is_before(pairs[at - 1], next.left, next.right) {
            return false;
        }
    }
    true
}

/// Where the pairs start that do not stand before the one of these states.
fn place_of(pairs: &[RankedPair], left: u32, right: u32) -> usize
    requires { AreAscending pairs.now }
    ensures within { result ≤ length pairs.now }
    ensures before { (i : ℕ) → i < result → IsBefore (pair_at pairs.now i) left right }
    ensures behind { (i : ℕ) → result ≤ i → i < length pairs.now
        → IsBefore (pair_at pairs.now i) left right → ⊥ }
{
    let mut low = 0;
    let mut high = pairs.len();
    while low < high {
        let middle = low + (high - low) / 2;
        if is_before(pairs[middle], left, right) {
            low = middle + 1;
        } else {
            high = middle;
        }
    }
    low
}

/// The rank of the pair of these states, if the list has it.
pub(crate) fn rank_of(pairs: &[RankedPair], left: u32, right: u32) -> Option<u32>
    requires { AreAscending pairs.now }
    ensures some { IfSome result (HasRank pairs.now left right) }
    ensures only { IfSome
        result (λ rank. (other : ℕ) → HasRank pairs.now left right other → other ≡ rank) }
    ensures none { IfNone result (HasPair pairs.now left right → ⊥) }
{
    let at = place_of(pairs, left, right);
    if at == pairs.len() {
        return None;
    }
    let found = pairs[at];
    if found.left == left && found.right == right {
        Some(found.rank)
    } else {
        None
    }
}

/// Tells whether the list has the pair.
pub(crate) fn has_pair(pairs: &[RankedPair], left: u32, right: u32) -> bool
    requires { AreAscending pairs.now }
    ensures { IsTrue result ↔ HasPair pairs.now left right }
{
    match rank_of(pairs, left, right) {
        Some(_) => true,
        None => false,
    }
}
