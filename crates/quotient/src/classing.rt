//! The classes of a relation.

ghost use Rattle.std.specs.Prelude.{◌≡◌, ◌^◌, ◌<◌, ◌≤◌, ℕ, length, IfOk};
ghost use Rattle.auto_core.specs.Game.{Holds};
ghost use Rattle.auto_core.specs.Quotient.{AreClassesOf};
ghost use Rattle.quotient.specs.Counting.{IsClassFor};

use crate::classes::{Classes, counted};
use auto_core::Memory;
use bit_rel::Rel;
use bit_rows::next_bit;
use std::alloc::Global;

/// The class of a state before this one that the relation relates to it both ways; `next` where
/// there is none.
fn class_for(rel: &Rel, of: &[u32], state: u32, next: u32) -> u32
    requires is_state { state < rel.now.size }
    requires few { rel.now.size < 2 ^ 32 }
    requires len { length of.now ≡ state }
    ensures { IsClassFor (Holds rel.now.pairs) of.now state next result }
{
    let mut at = 0;
    while let Some(before) = next_bit(rel.row(state), at) {
        if before >= state as usize {
            return next;
        }
        if rel.both_ways(before as u32, state) {
            return of[before];
        }
        at = before + 1;
    }
    next
}

/// The classes of the states that the relation, which is reflexive and transitive, relates both
/// ways, numbered by their least members.
pub fn classes_of(alloc: Global, rel: &Rel) -> Result<Classes, Memory>
    requires some { 1 ≤ rel.now.size }
    requires reflexive { (p : ℕ) → p < rel.now.size → Holds rel.now.pairs p p }
    requires transitive { (p q r : ℕ) → Holds rel.now.pairs p q → Holds rel.now.pairs q r
        → Holds rel.now.pairs p r }
    ensures { IfOk result (AreClassesOf rel.now.size (Holds rel.now.pairs)) }
{
    let mut of = Vec::new(alloc);
    let mut count = 0;
    for state in 0..rel.size() {
        let class = class_for(rel, &of, state, count as u32);
        of.push(class)?;
        count = counted(class as usize, count);
    }
    Ok(Classes { of, count })
}
