//! Candidates: the start, and the extensions of an element.

ghost use Rattle.std.specs.Prelude.{◌≡◌, ◌<◌, ◌↔◌, ℕ, List, length, slice_index_or, IfOk};
ghost use Rattle.auto_core.specs.Game.{Holds};
ghost use Rattle.auto_core.specs.Outcome.{Entry, next_entry};
ghost use Rattle.auto_core.specs.PairOutcome.{start_entry};
ghost use Rattle.set_rows.specs.Sets.{IsRow, IsSubset, IsCovered};
ghost use Rattle.antichain.specs.Kept.{IsKept};
ghost use Rattle.antichain.specs.Made.{AreMade};

use crate::parts::Held;
use crate::sets::Sets;
use auto_core::{Auto, Memory, Origin, rows};
use bit_rel::Rel;
use set_rows::{write_below, write_one};
use std::alloc::Global;

/// The states that the order relates to a member of the set.
pub(crate) fn below(alloc: Global, order: &Rel, members: &[u64]) -> Result<Vec<u64>, Memory>
    requires { IsRow order.now.size members.now }
    ensures row { IfOk result (λ below. IsRow order.now.size below.items) }
    ensures covering { IfOk
        result (λ below.
        (other : List ℕ)
        → IsSubset other below.items ↔ IsCovered (Holds order.now.pairs) other members.now) }
{
    let mut below = vec![in alloc; 0; rows::words_for(order.size())]?;
    write_below(order, members, &mut below);
    Ok(below)
}

/// The first word of the row, and 0 if it has none.
fn head_of(row: &[u64]) -> u64
    ensures { result ≡ slice_index_or row.now 0 0 }
{
    if row.is_empty() {
        return 0;
    }
    row[0]
}

/// The pair of the initial states, for the empty word.
pub(crate) fn start_candidate(
    alloc: Global,
    first: &Auto,
    second: &Auto,
    order: &Rel,
) -> Result<Held, Memory>
    requires order_size { order.now.size ≡ second.now.states }
    ensures { IfOk result (λ h. IsKept second.now order.now.pairs h (start_entry first.now)) }
{
    let mut members = vec![in alloc; 0; rows::words_for(second.states())]?;
    write_one(second.states(), second.initial(), &mut members);
    let below = below(alloc, order, &members)?;
    let head = head_of(&members);
    let below_head = head_of(&below);
    Ok(Held {
        origin: Origin::Start,
        state: first.initial(),
        members,
        below,
        head,
        below_head,
    })
}

/// The element with this number, extended by the transition, which leaves its state.
pub(crate) fn next_candidate(
    alloc: Global,
    first: &Auto,
    second: &Auto,
    order: &Rel,
    element: u32,
    from: &Held,
    t: u32,
    sets: &mut Sets,
) -> Result<Held, Memory>
    requires order_size { order.now.size ≡ second.now.states }
    requires number { t < length first.now.transitions }
    requires row { IsRow second.now.states from.now.members.items }
    requires sets { AreMade second.now order.now.pairs sets.old.made.items }
    ensures sets { IfOk result (λ _. AreMade second.now order.now.pairs sets.new.made.items) }
    ensures candidate { IfOk
        result (λ h.
        (x : Entry) → IsKept second.now order.now.pairs from.now x
        → IsKept second.now order.now.pairs h (next_entry first.now element x t)) }
{
    let step = first.transitions()[t as usize];
    let number = sets.after(alloc, second, order, step.label, &from.members)?;
    let made = &sets.made[number as usize];
    let members = made.members.to_vec(alloc)?;
    let below = made.below.to_vec(alloc)?;
    let head = head_of(&members);
    let below_head = head_of(&below);
    Ok(Held {
        origin: Origin::Next(element, t),
        state: step.target,
        members,
        below,
        head,
        below_head,
    })
}
