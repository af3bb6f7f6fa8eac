//! The search from its question to its outcome.

ghost use Rattle.std.specs.Prelude.{◌≡◌, ◌≤◌, map, IfOk};
ghost use Rattle.auto_core.specs.Game.{IsGreatestForward};
ghost use Rattle.antichain.specs.declared.parts.Held.{Held};
ghost use Rattle.antichain.specs.Ends.{IsWordOutcomeOf, IsTrueWordOutcome};

use crate::closing::closure;
use crate::family::Family;
use crate::parts::{Fate, Held, WordOutcome};
use crate::turns::run;
use auto_core::{Auto, List, Memory, Origin};
use bit_rel::Rel;
use std::alloc::Global;
use supergraph::word_of;

/// The origins of the elements.
fn origins_of(alloc: Global, held: &[Held]) -> Result<List<Origin>, Memory>
    ensures { IfOk result (λ origins. origins ≡ map (λ (h : Held). h.origin) held.now) }
{
    let mut origins = List::new(alloc);
    for element in held {
        origins.push(element.origin)?;
    }
    Ok(origins)
}

/// Searches for a closed set of pairs of a state of the first automaton and a set of states of the
/// second, with at most so many elements. The order is the greatest forward relation at lookahead 1
/// of the second automaton.
pub fn search(
    alloc: Global,
    first: &Auto,
    second: &Auto,
    order: &Rel,
    limit: u32,
) -> Result<WordOutcome, Memory>
    requires labels { first.now.labels ≡ second.now.labels }
    requires order_size { order.now.size ≡ second.now.states }
    requires greatest { IsGreatestForward second.now 1 order.now.pairs }
    requires some { 1 ≤ limit }
    requires few { limit ≤ 100000 }
    ensures answer { IfOk result (IsWordOutcomeOf first.now second.now order.now.pairs limit) }
    ensures truth { IfOk result (IsTrueWordOutcome first.now second.now order.now.pairs limit) }
{
    let mut family = Family::new(alloc, first.states())?;
    prove!(order.size() == second.states());
    let fate = run(alloc, first, second, order, limit, &mut family)?;
    match fate {
        Fate::GoesOn => Ok(WordOutcome::Closed(closure(alloc, first, second, order, &family)?)),
        Fate::Apart(number) => {
            let origins = origins_of(alloc, &family.held)?;
            Ok(WordOutcome::Apart(word_of(alloc, first, origins.as_slice(), number)?))
        }
        Fate::Limit => Ok(WordOutcome::Limit(origins_of(alloc, &family.held)?)),
    }
}
