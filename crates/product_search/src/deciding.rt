//! The decision.

ghost use Rattle.std.specs.Prelude.{◌≡◌, ◌+◌, ◌^◌, ◌<◌, ℕ, true, false, length, IfOk};
ghost use Rattle.auto_core.specs.Automaton.{IsAutomaton};
ghost use Rattle.product_laws.specs.Ranked.{IsDeterministic};
ghost use Rattle.product_laws.specs.Reached.{MovesReachGoals};
ghost use Rattle.product_search.specs.Found.{pair_at, AreFound, IsClosedAt};
ghost use Rattle.product_search.specs.Decision.{IncludedIsRight, HasJustReached, HasAtMost, ApartIsRight, LimitIsRight};

use crate::arcs::Arcs;
use crate::cycles::{bad_move, lasso_of};
use crate::found::Found;
use crate::ranking::ranked_pairs;
use auto_core::{Auto, Lasso, Memory};
use product_laws::RankedPair;
use std::alloc::Global;
use strong_components::components_of;

/// What the product of two automata tells.
#[derive(Debug, Drop)]
pub enum Product {
    /// The second automaton accepts each lasso that the first accepts: the pairs are a ranked
    /// product.
    Included(Vec<RankedPair>),
    /// The first automaton accepts the lasso and the second does not.
    Apart(Lasso),
    /// More pairs than the limit are reached.
    Limit,
}

/// The number of the pairs. So many that the numbers do not suffice are refused.
fn count_of(pairs: usize) -> Result<u32, Memory>
    ensures { IfOk result (λ count. (count ≡ pairs) × (count + 1 < 2 ^ 32)) }
{
    if pairs >= 0xffff_ffff {
        return Err(Memory);
    }
    Ok(pairs as u32)
}

/// The answer, once all pairs that are reached are found.
fn answer(alloc: Global, first: &Auto, second: &Auto, found: &Found) -> Result<Product, Memory>
    requires valid { IsAutomaton second.now }
    requires deterministic { IsDeterministic second.now }
    requires trimmed { MovesReachGoals first.now }
    requires found { AreFound first.now second.now false found.now.pairs.keys
        found.now.steps.items }
    requires initial { pair_at found.now.pairs.keys 0 ≡ (first.now.initial, second.now.initial) }
    requires closed { (i : ℕ) → i < length found.now.pairs.keys
        → IsClosedAt first.now second.now false found.now.pairs.keys i }
    ensures included { IfOk result (IncludedIsRight first.now second.now) }
    ensures reached { IfOk result (HasJustReached first.now second.now) }
    ensures few { IfOk result (HasAtMost (length found.now.pairs.keys)) }
    ensures apart { IfOk result (ApartIsRight first.now second.now) }
    ensures no_limit { result ≡ Ok Product.Limit → ⊥ }
{
    let count = count_of(found.pairs.len())?;
    let arcs = Arcs::of_pairs(alloc, first, second, &found.pairs, count)?;
    let numbers = components_of(alloc, count, &arcs.starts, &arcs.targets)?;
    match bad_move(first, &found.pairs, &arcs, &numbers, count) {
        Some(bad) => Ok(Product::Apart(lasso_of(alloc, first, second, found, bad)?)),
        None => Ok(Product::Included(ranked_pairs(alloc, &found.pairs, &numbers, count)?)),
    }
}

/// Decides whether the second automaton, which is deterministic, accepts each lasso that the first
/// accepts, whose moves lead to states that reach an accepting one on a cycle. A yes has at most
/// `limit` pairs, and `Limit` says that more are reached; 2^32 - 1 and more are refused as memory.
pub fn decide(alloc: Global, first: &Auto, second: &Auto, limit: u32) -> Result<Product, Memory>
    requires deterministic { IsDeterministic second.now }
    requires trimmed { MovesReachGoals first.now }
    ensures included { IfOk result (IncludedIsRight first.now second.now) }
    ensures reached { IfOk result (HasJustReached first.now second.now) }
    ensures few { IfOk result (HasAtMost limit) }
    ensures apart { IfOk result (ApartIsRight first.now second.now) }
    ensures limit { IfOk result (LimitIsRight first.now second.now limit) }
{
    let mut found = Found::new(alloc, (first.initial(), second.initial()))?;
    if !found.expand_all(first, second, false, limit)? {
        return Ok(Product::Limit);
    }
    answer(alloc, first, second, &found)
}
