//! The pairs with their ranks.

ghost use Rattle.std.specs.Prelude.{◌≡◌, ◌<◌, ℕ, length, Contains, IfOk};
ghost use Rattle.product_laws.specs.declared.RankedPair.{RankedPair};
ghost use Rattle.product_laws.specs.Ascending.{pair_at as ranked_at, AreAscending};
ghost use Rattle.product_search.specs.Found.{pair_at};
ghost use Rattle.product_search.specs.Ranks.{with_rank};

use crate::pairs::pair_of;
use auto_core::Memory;
use indexmap::IndexSet;
use product_laws::RankedPair;
use std::alloc::Global;

/// The pairs with their ranks, by number.
fn with_ranks(
    alloc: Global,
    pairs: &IndexSet<(u32, u32)>,
    ranks: &[u32],
    count: u32,
) -> Result<Vec<RankedPair>, Memory>
    requires count { count ≡ length pairs.now.keys }
    requires ranks { length ranks.now ≡ length pairs.now.keys }
    ensures size { IfOk result (λ ranked. length ranked.items ≡ length pairs.now.keys) }
    ensures each { IfOk
        result (λ ranked.
        (i : ℕ) → i < length pairs.now.keys
        → ranked_at ranked.items i ≡ with_rank pairs.now.keys ranks.now i) }
{
    let mut ranked = Vec::new(alloc);
    for number in 0..count {
        let pair = pair_of(pairs, number);
        ranked.push(RankedPair {
            left: pair.0,
            right: pair.1,
            rank: ranks[number as usize],
        })?;
    }
    Ok(ranked)
}

/// The pairs with their ranks, in order.
pub(crate) fn ranked_pairs(
    alloc: Global,
    pairs: &IndexSet<(u32, u32)>,
    ranks: &[u32],
    count: u32,
) -> Result<Vec<RankedPair>, Memory>
    requires count { count ≡ length pairs.now.keys }
    requires ranks { length ranks.now ≡ length pairs.now.keys }
    requires different { (i j : ℕ) → i < j → j < length pairs.now.keys
        → pair_at pairs.now.keys i ≡ pair_at pairs.now.keys j → ⊥ }
    ensures size { IfOk result (λ ranked. length ranked.items ≡ length pairs.now.keys) }
    ensures ascending { IfOk result (λ ranked. AreAscending ranked.items) }
    ensures all { IfOk
        result (λ ranked.
        (i : ℕ) → i < length pairs.now.keys
        → Contains ranked.items (with_rank pairs.now.keys ranks.now i)) }
    ensures only { IfOk
        result (λ ranked.
        (x : RankedPair) → Contains ranked.items x
        → (i : ℕ) × (i < length pairs.now.keys) × (x ≡ with_rank pairs.now.keys ranks.now i)) }
{
    let mut ranked = with_ranks(alloc, pairs, ranks, count)?;
    ranked.sort()?;
    Ok(ranked)
}
