//! The search, candidate by candidate and turn by turn.

ghost use Rattle.std.specs.Prelude.{◌≡◌, ◌+◌, ◌<◌, ◌≤◌, ℕ, List, [], ◌∷◌, length, IfOk};
ghost use Rattle.auto_core.specs.Automaton.{IsAutomaton};
ghost use Rattle.auto_core.specs.Game.{IsGreatestForward};
ghost use Rattle.auto_core.specs.Outcome.{At, Entry, HasNoSubsumer};
ghost use Rattle.auto_core.specs.PairOutcome.{pair_rules};
ghost use Rattle.evidence.specs.Entries.{entry_of};
ghost use Rattle.antichain.specs.Kept.{HasCome, HasEnded, IsCandidate, IsWhole, entries_held};
ghost use Rattle.antichain.specs.Made.{AreMade};

use crate::candidates::{next_candidate, start_candidate};
use crate::family::Family;
use crate::pairs::fails;
use crate::parts::{Fate, Held};
use crate::sets::Sets;
use auto_core::{Auto, Memory};
use bit_rel::Rel;
use std::alloc::Global;

/// The candidate, which no element subsumes, enters, and is tested, unless it is one too many.
fn admit(
    alloc: Global,
    first: &Auto,
    second: &Auto,
    order: &Rel,
    limit: u32,
    new: Held,
    family: &mut Family,
) -> Result<Fate, Memory>
    requires first_valid { IsAutomaton first.now }
    requires second_valid { IsAutomaton second.now }
    requires greatest { IsGreatestForward second.now 1 order.now.pairs }
    requires order_size { order.now.size ≡ second.now.states }
    requires whole { IsWhole first.now second.now order.now.pairs family.old }
    requires candidate { IsCandidate first.now second.now order.now.pairs
        (entries_held first.now family.old) new }
    requires few { length family.old.held.items ≤ limit }
    requires unmet { HasNoSubsumer (pair_rules first.now second.now order.now.pairs)
        (entries_held first.now family.old)
        (entry_of first.now (entries_held first.now family.old) new.origin) }
    ensures { IfOk result (λ fate. (cs : List Entry) (turn : ℕ) → HasCome first.now second.now order.now.pairs limit family.old family.new fate
        (entry_of first.now (entries_held first.now family.old) new.origin ∷ cs) cs turn turn) }
{
    let number = family.held.len() as u32;
    let failing = fails(first, second, &new);
    family.enter(alloc, order, new)?;
    if number == limit {
        return Ok(Fate::Limit);
    }
    if failing {
        return Ok(Fate::Apart(number));
    }
    Ok(Fate::GoesOn)
}

/// A candidate comes: it is passed over if a live element subsumes it, and else admitted.
fn consider(
    alloc: Global,
    first: &Auto,
    second: &Auto,
    order: &Rel,
    limit: u32,
    new: Held,
    family: &mut Family,
) -> Result<Fate, Memory>
    requires first_valid { IsAutomaton first.now }
    requires second_valid { IsAutomaton second.now }
    requires greatest { IsGreatestForward second.now 1 order.now.pairs }
    requires order_size { order.now.size ≡ second.now.states }
    requires whole { IsWhole first.now second.now order.now.pairs family.old }
    requires candidate { IsCandidate first.now second.now order.now.pairs
        (entries_held first.now family.old) new }
    requires few { length family.old.held.items ≤ limit }
    ensures { IfOk result (λ fate. (cs : List Entry) (turn : ℕ) → HasCome first.now second.now order.now.pairs limit family.old family.new fate
        (entry_of first.now (entries_held first.now family.old) new.origin ∷ cs) cs turn turn) }
{
    match family.least(order, &new) {
        Some(_number) => Ok(Fate::GoesOn),
        None => admit(alloc, first, second, order, limit, new, family),
    }
}

/// The candidate of the start.
fn try_start(
    alloc: Global,
    first: &Auto,
    second: &Auto,
    order: &Rel,
    limit: u32,
    family: &mut Family,
) -> Result<Fate, Memory>
    requires first_valid { IsAutomaton first.now }
    requires second_valid { IsAutomaton second.now }
    requires greatest { IsGreatestForward second.now 1 order.now.pairs }
    requires order_size { order.now.size ≡ second.now.states }
    requires whole { IsWhole first.now second.now order.now.pairs family.old }
    requires none { family.old.held.items ≡ [] }
    ensures { IfOk result (λ fate. HasCome first.now second.now order.now.pairs limit family.old family.new fate
        (pair_rules first.now second.now order.now.pairs).starts [] 0 0) }
{
    let new = start_candidate(alloc, first, second, order)?;
    consider(alloc, first, second, order, limit, new, family)
}

/// The turn of the element: if it is live, its extensions come in order, until the search ends.
/// They all come, even if one of them drops the element.
fn try_turn(
    alloc: Global,
    first: &Auto,
    second: &Auto,
    order: &Rel,
    limit: u32,
    turn: u32,
    sets: &mut Sets,
    family: &mut Family,
) -> Result<Fate, Memory>
    requires first_valid { IsAutomaton first.now }
    requires second_valid { IsAutomaton second.now }
    requires greatest { IsGreatestForward second.now 1 order.now.pairs }
    requires order_size { order.now.size ≡ second.now.states }
    requires whole { IsWhole first.now second.now order.now.pairs family.old }
    requires turn { turn < length family.old.held.items }
    requires few { length family.old.held.items ≤ limit }
    requires sets { AreMade second.now order.now.pairs sets.old.made.items }
    ensures sets { IfOk result (λ _. AreMade second.now order.now.pairs sets.new.made.items) }
    ensures come { IfOk
        result (λ fate.
        HasCome first.now second.now order.now.pairs limit family.old family.new fate [] [] turn
        (turn + 1)) }
{
    if !family.live[turn as usize] {
        return Ok(Fate::GoesOn);
    }
    let out = first.outgoing(family.held[turn as usize].state);
    for t in out.begin..out.end {
        let from = &family.held[turn as usize];
        let new = next_candidate(alloc, first, second, order, turn, from, t, sets)?;
        let fate = consider(alloc, first, second, order, limit, new, family)?;
        match fate {
            Fate::GoesOn => {}
            _ => return Ok(fate),
        }
    }
    Ok(Fate::GoesOn)
}

/// The whole search: the start, and then a turn for each element in order of its number.
pub(crate) fn run(
    alloc: Global,
    first: &Auto,
    second: &Auto,
    order: &Rel,
    limit: u32,
    family: &mut Family,
) -> Result<Fate, Memory>
    requires first_valid { IsAutomaton first.now }
    requires second_valid { IsAutomaton second.now }
    requires greatest { IsGreatestForward second.now 1 order.now.pairs }
    requires order_size { order.now.size ≡ second.now.states }
    requires whole { IsWhole first.now second.now order.now.pairs family.old }
    requires none { family.old.held.items ≡ [] }
    ensures whole { IfOk result (λ fate. IsWhole first.now second.now order.now.pairs family.new) }
    ensures few { IfOk result (λ fate. fate ≡ Fate.GoesOn → length family.new.held.items ≤ limit) }
    ensures ended { IfOk
        result (λ fate.
        HasEnded first.now second.now order.now.pairs limit fate
        (entries_held first.now family.new)) }
{
    let mut sets = Sets::new(alloc)?;
    let fate = try_start(alloc, first, second, order, limit, family)?;
    match fate {
        Fate::GoesOn => {}
        _ => return Ok(fate),
    }
    let mut turn = 0;
    while (turn as usize) < family.held.len() {
        let fate = try_turn(alloc, first, second, order, limit, turn, &mut sets, family)?;
        match fate {
            Fate::GoesOn => {}
            _ => return Ok(fate),
        }
        turn += 1;
    }
    Ok(Fate::GoesOn)
}
