//! Whether one transition is better than another.

ghost use Rattle.std.specs.Prelude.{◌≡◌, ◌<◌, ◌≤◌, ◌↔◌, length, IsTrue};
ghost use Rattle.auto_core.specs.Game.{Holds, Strict};
ghost use Rattle.auto_core.specs.Pruning.{AtSource, AtTarget, IsBetterAt};

use auto_core::{Auto, Trans};
use bit_rel::Rel;

/// Tells whether the relation holds the pair this way and not the other.
fn strictly(rel: &Rel, p: u32, q: u32) -> bool
    requires left { p < rel.now.size }
    requires right { q < rel.now.size }
    ensures { IsTrue result ↔ Strict (Holds rel.now.pairs) p q }
{
    rel.get(p, q) && !rel.get(q, p)
}

/// Tells whether the pair of relations with this number relates the source `p` to the source `q`.
pub fn at_source(pair: u32, back: &Rel, p: u32, q: u32) -> bool
    requires pair_from { 1 ≤ pair }
    requires pair_upto { pair ≤ 4 }
    requires left { ¬ (pair ≡ 1) → p < back.now.size }
    requires right { ¬ (pair ≡ 1) → q < back.now.size }
    ensures { IsTrue result ↔ AtSource pair (Holds back.now.pairs) p q }
{
    match pair {
        1 => p == q,
        3 => back.get(p, q),
        _ => strictly(back, p, q),
    }
}

/// Tells whether the pair of relations with this number relates the target `p` to the target `q`.
fn at_target(pair: u32, ahead: &Rel, p: u32, q: u32) -> bool
    requires pair_from { 1 ≤ pair }
    requires pair_upto { pair ≤ 4 }
    requires left { ¬ (pair ≡ 2) → p < ahead.now.size }
    requires right { ¬ (pair ≡ 2) → q < ahead.now.size }
    ensures { IsTrue result ↔ AtTarget pair (Holds ahead.now.pairs) p q }
{
    match pair {
        2 => p == q,
        4 => ahead.get(p, q),
        _ => strictly(ahead, p, q),
    }
}

/// Tells whether the pair of relations with this number relates both ends of the first transition
/// to those of the second.
fn has_better_ends(pair: u32, back: &Rel, ahead: &Rel, old: Trans, new: Trans) -> bool
    requires pair_from { 1 ≤ pair }
    requires pair_upto { pair ≤ 4 }
    requires old_source { ¬ (pair ≡ 1) → old.source < back.now.size }
    requires new_source { ¬ (pair ≡ 1) → new.source < back.now.size }
    requires old_target { ¬ (pair ≡ 2) → old.target < ahead.now.size }
    requires new_target { ¬ (pair ≡ 2) → new.target < ahead.now.size }
    ensures { IsTrue result
        ↔ (AtSource pair (Holds back.now.pairs) old.source new.source
        × AtTarget pair (Holds ahead.now.pairs) old.target new.target) }
{
    at_source(pair, back, old.source, new.source) && at_target(pair, ahead, old.target, new.target)
}

/// Tells whether the transition `by` is better than the transition `t`, by the approved pair with
/// this number, from 1 to 4. A relation that the pair has no use for is passed over.
pub fn better(automaton: &Auto, pair: u32, back: &Rel, ahead: &Rel, t: u32, by: u32) -> bool
    requires pair_from { 1 ≤ pair }
    requires pair_upto { pair ≤ 4 }
    requires back { ¬ (pair ≡ 1) → back.now.size ≡ automaton.now.states }
    requires ahead { ¬ (pair ≡ 2) → ahead.now.size ≡ automaton.now.states }
    requires t { t < length automaton.now.transitions }
    requires by { by < length automaton.now.transitions }
    ensures { IsTrue result
        ↔ IsBetterAt automaton.now pair (Holds back.now.pairs) (Holds ahead.now.pairs) t by }
{
    let old = automaton.transitions()[t as usize];
    let new = automaton.transitions()[by as usize];
    if old.label == new.label {
        has_better_ends(pair, back, ahead, old, new)
    } else {
        false
    }
}
