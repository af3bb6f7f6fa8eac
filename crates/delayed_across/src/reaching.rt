//! The part of a delayed simulation that first answers reach from the pair of the initial states.
//!
//! ```text
//! number    0     1     2     3     4          the place of a pair in the list that is given
//! pair      0 0   0 2   1 0   1 2   2 1        0 0 is that of the initial states
//! set       x           x           x          the numbers that were reached,
//! list      0   2   4                          and the same in the order in which they came;
//!               ^ at                           the answers of pairs before `at` are there
//! ```
//!
//! The greatest relation has every pair that some strategy may use, and a file needs those of one
//! strategy alone: each move is answered by the least state that may answer it. Each pair that is
//! reached is looked at once, and the pairs are found by halving the list, so that no table of
//! states by states is made.

ghost use Rattle.std.specs.Prelude.{◌≡◌, ◌^◌, ◌<◌, length, Contains, IfOk, OnOk};
ghost use Rattle.auto_core.specs.Automaton.{IsAutomaton};
ghost use Rattle.delayed_game.specs.Across.{AreWithin};
ghost use Rattle.delayed_laws.specs.Across.{IsDelayedSimulation};
ghost use Rattle.delayed_laws.specs.Listed.{place_pairs, AreDelayedAscending};
ghost use Rattle.delayed_across.specs.Listed.{IsNumberOf};
ghost use Rattle.delayed_across.specs.Reached.{LeadsOn, IsLedTo, IsReachedNumber, IsPartBy, IsReachedPart};
ghost use Rattle.useful_states.specs.Gathering.{ListsMembers, HasGained, HoldsJust};

use crate::answers::{bound_of, first_answer};
use crate::lookup::number_of;
use auto_core::{Auto, Memory};
use delayed_laws::DelayedPair;
use std::alloc::Global;
use useful_states::Gathered;

/// Adds the pairs that first answer the moves of the pair with this number.
fn add_answers(
    gathered: &mut Gathered,
    first: &Auto,
    second: &Auto,
    pairs: &[DelayedPair],
    number: u32,
) -> Result<(), Memory>
    requires ascending { AreDelayedAscending pairs.now }
    requires few { length pairs.now < 2 ^ 32 }
    requires in_range { AreWithin first.now.states second.now.states (place_pairs pairs.now) }
    requires number { number < length pairs.now }
    requires listed { ListsMembers gathered.old }
    requires size { gathered.old.set.states ≡ length pairs.now }
    ensures { OnOk result
        (HasGained (LeadsOn first.now second.now pairs.now number) gathered.old gathered.new) }
{
    let pair = pairs[number as usize];
    let bound = bound_of(pair.rank);
    let span = first.outgoing(pair.left);
    for t in span.begin..span.end {
        let step = first.transitions()[t as usize];
        match first_answer(second, pairs, bound, pair.right, step) {
            Some(answer) => gathered.add(answer as u32)?,
            None => {}
        }
    }
    Ok(())
}

/// Adds all pairs to which any number of first answers lead from those that are there.
fn close_answers(
    gathered: &mut Gathered,
    first: &Auto,
    second: &Auto,
    pairs: &[DelayedPair],
) -> Result<(), Memory>
    requires ascending { AreDelayedAscending pairs.now }
    requires few { length pairs.now < 2 ^ 32 }
    requires in_range { AreWithin first.now.states second.now.states (place_pairs pairs.now) }
    requires listed { ListsMembers gathered.old }
    requires size { gathered.old.set.states ≡ length pairs.now }
    ensures { OnOk result
        (HasGained (IsLedTo first.now second.now pairs.now gathered.old.set.members) gathered.old
        gathered.new) }
{
    let mut at = 0;
    while at < gathered.list.len() {
        let number = gathered.list.as_slice()[at];
        add_answers(gathered, first, second, pairs, number)?;
        at = at + 1;
    }
    Ok(())
}

/// The number of the pair of the initial states, if it is there.
fn initial_number(
    alloc: Global,
    first: &Auto,
    second: &Auto,
    pairs: &[DelayedPair],
) -> Result<Gathered, Memory>
    requires ascending { AreDelayedAscending pairs.now }
    requires few { length pairs.now < 2 ^ 32 }
    ensures numbers { IfOk
        result
        (HoldsJust (length pairs.now) (IsNumberOf pairs.now first.now.initial second.now.initial)) }
    ensures valid { IfOk result (λ _. IsAutomaton second.now) }
{
    let mut gathered = Gathered::new(alloc, pairs.len() as u32)?;
    match number_of(pairs, first.initial(), second.initial()) {
        Some(at) => gathered.add(at as u32)?,
        None => {}
    }
    Ok(gathered)
}

/// The numbers of the pairs that are reached.
fn reached_numbers(
    alloc: Global,
    first: &Auto,
    second: &Auto,
    pairs: &[DelayedPair],
) -> Result<Gathered, Memory>
    requires ascending { AreDelayedAscending pairs.now }
    requires few { length pairs.now < 2 ^ 32 }
    requires in_range { AreWithin first.now.states second.now.states (place_pairs pairs.now) }
    ensures numbers { IfOk
        result (HoldsJust (length pairs.now) (IsReachedNumber first.now second.now pairs.now)) }
    ensures valid { IfOk result (λ _. IsAutomaton second.now) }
{
    let mut gathered = initial_number(alloc, first, second, pairs)?;
    close_answers(&mut gathered, first, second, pairs)?;
    Ok(gathered)
}

/// The pairs of the list whose numbers were gathered.
fn pairs_gathered(
    alloc: Global,
    pairs: &[DelayedPair],
    gathered: &Gathered,
) -> Result<Vec<DelayedPair>, Memory>
    requires ascending { AreDelayedAscending pairs.now }
    requires few { length pairs.now < 2 ^ 32 }
    requires size { gathered.now.set.states ≡ length pairs.now }
    ensures { IfOk result (λ v. IsPartBy (Contains gathered.now.set.members) pairs.now v.items) }
{
    let mut part = Vec::with_capacity(alloc, gathered.list.len())?;
    for at in 0..pairs.len() {
        if gathered.set.has(at as u32) {
            part.push(pairs[at])?;
        }
    }
    Ok(part)
}

/// The pairs of a delayed simulation that are reached from the pair of the initial states, where
/// each move is answered by the least state that may answer it; they are one too.
pub fn reached(
    alloc: Global,
    first: &Auto,
    second: &Auto,
    pairs: &[DelayedPair],
) -> Result<Vec<DelayedPair>, Memory>
    requires ascending { AreDelayedAscending pairs.now }
    requires few { length pairs.now < 2 ^ 32 }
    requires in_range { AreWithin first.now.states second.now.states (place_pairs pairs.now) }
    ensures part { IfOk result (λ v. IsReachedPart first.now second.now pairs.now v.items) }
    ensures is { IfOk
        result
        (λ v.
        IsDelayedSimulation first.now second.now (place_pairs pairs.now)
        → IsDelayedSimulation first.now second.now (place_pairs v.items)) }
{
    let gathered = reached_numbers(alloc, first, second, pairs)?;
    pairs_gathered(alloc, pairs, &gathered)
}
