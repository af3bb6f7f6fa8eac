//! A candidate meets the live elements that have its state.

ghost use Rattle.std.specs.Prelude.{◌≡◌, ◌↔◌, length, vec_len, MatchOption, IfOk, IsTrue, filter, slice_index_or, true, false, ℕ, List};
ghost use Rattle.set_rows.specs.Sets.{IsSubset};
ghost use Rattle.antichain.specs.Kept.{ArePrepared, IsPrepared, AreThere, NoneSubsumes, IsFirstSubsumer, AreDropped, held_pair};

use crate::parts::Held;
use auto_core::Memory;
use bit_rel::Rel;
use set_rows::subset;
use std::alloc::Global;

/// Tells whether no row with the first word is inside one with the other.
fn misses(head: u64, bound: u64) -> bool
    ensures { result ≡ true → (row other : List ℕ) → head ≡ slice_index_or row 0 0
        → bound ≡ slice_index_or other 0 0 → IsSubset row other → ⊥ }
{
    if head & !bound != 0 {
        return true;
    }
    false
}

/// Tells whether the first element subsumes the second: it has the same state, and its members are
/// below those of the second.
fn subsumes(x: &Held, y: &Held) -> bool
    requires len { length x.now.members.items ≡ length y.now.below.items }
    requires head { x.now.head ≡ slice_index_or x.now.members.items 0 0 }
    requires below_head { y.now.below_head ≡ slice_index_or y.now.below.items 0 0 }
    ensures { IsTrue result
        ↔ ((x.now.state ≡ y.now.state) × IsSubset x.now.members.items y.now.below.items) }
{
    if misses(x.head, y.below_head) {
        return false;
    }
    x.state == y.state && subset(&x.members, &y.below)
}

/// The first of these elements that subsumes the new one.
pub(crate) fn least_subsumer(order: &Rel, held: &[Held], among: &[u32], new: &Held) -> Option<u32>
    requires there { AreThere among.now (length held.now) }
    requires held { ArePrepared order.now.size order.now.pairs held.now }
    requires new { IsPrepared order.now.size order.now.pairs new.now }
    ensures { MatchOption result
        (NoneSubsumes order.now.pairs held.now among.now (held_pair new.now))
        (IsFirstSubsumer order.now.pairs held.now among.now (held_pair new.now)) }
{
    for number in among {
        let element = &held[*number as usize];
        if subsumes(element, new) {
            return Some(*number);
        }
    }
    None
}

/// Drops those of these elements that the new one subsumes.
pub(crate) fn drop_subsumed(
    order: &Rel,
    held: &[Held],
    among: &[u32],
    new: &Held,
    live: &mut Vec<bool>,
)
    requires there { AreThere among.now (length held.now) }
    requires held { ArePrepared order.now.size order.now.pairs held.now }
    requires new { IsPrepared order.now.size order.now.pairs new.now }
    requires flags { vec_len live.old ≡ length held.now }
    ensures { AreDropped order.now.pairs held.now among.now (held_pair new.now) live.old.items
        live.new.items }
{
    for number in among {
        let element = &held[*number as usize];
        if subsumes(new, element) {
            live[*number as usize] = false;
        }
    }
}

/// Those of these elements that are live.
pub(crate) fn still_live(alloc: Global, among: &[u32], live: &[bool]) -> Result<Vec<u32>, Memory>
    requires { AreThere among.now (length live.now) }
    ensures { IfOk
        result (λ kept. kept.items ≡ filter (λ j. slice_index_or live.now j false) among.now) }
{
    let mut kept = Vec::new(alloc);
    for number in among {
        if live[*number as usize] {
            kept.push(*number)?;
        }
    }
    Ok(kept)
}
