//! The automaton that accepts more.

ghost use Rattle.std.specs.Prelude.{◌≡◌, ◌<◌, ◌↔◌, ℕ, Contains, IsTrue, IfOk};
ghost use Rattle.useful_states.specs.Gathering.{HoldsJust};
ghost use Rattle.more_accepting.specs.More.{AvoidsAcceptance, AcceptsMore, IsMoreAccepting};
ghost use Rattle.more_accepting.specs.Making.{IsJoinedToAvoiding};

use crate::parts::{beside, inside, with_parts};
use auto_core::{Auto, Memory, StateSet};
use std::alloc::Global;
use useful_states::{Direction, Gathered, component_numbers, is_on_cycle};

/// The states on cycles of states that do not accept.
fn avoiding(alloc: Global, automaton: &Auto) -> Result<Gathered, Memory>
    ensures { IfOk result (HoldsJust automaton.now.states (AvoidsAcceptance automaton.now)) }
{
    let beside = beside(alloc, automaton)?;
    let numbers = component_numbers(alloc, &beside)?;
    let mut gathered = Gathered::new(alloc, automaton.states())?;
    for state in 0..automaton.states() {
        if is_on_cycle(&beside, &numbers, state) {
            gathered.add(state)?;
        }
    }
    Ok(gathered)
}

/// The states whose components have such a cycle.
fn joined_to_avoiding(alloc: Global, automaton: &Auto) -> Result<Gathered, Memory>
    ensures { IfOk result (HoldsJust automaton.now.states (IsJoinedToAvoiding automaton.now)) }
{
    let mut gathered = avoiding(alloc, automaton)?;
    let inside = inside(alloc, automaton)?;
    gathered.close(&inside, Direction::Forward)?;
    Ok(gathered)
}

/// Tells whether the state accepts, or is not one of those whose component has a cycle that avoids
/// acceptance.
fn accepts(automaton: &Auto, joined: &StateSet, state: u32) -> bool
    requires states { joined.now.states ≡ automaton.now.states }
    requires joined { (q : ℕ) → Contains joined.now.members q ↔ IsJoinedToAvoiding automaton.now q }
    requires state { state < automaton.now.states }
    ensures { IsTrue result ↔ AcceptsMore automaton.now state }
{
    if automaton.accepting(state) {
        return true;
    }
    !joined.has(state)
}

/// The states that accept.
fn accepting_more(alloc: Global, automaton: &Auto) -> Result<Gathered, Memory>
    ensures { IfOk result (HoldsJust automaton.now.states (AcceptsMore automaton.now)) }
{
    let joined = joined_to_avoiding(alloc, automaton)?;
    let mut gathered = Gathered::new(alloc, automaton.states())?;
    for state in 0..automaton.states() {
        if accepts(automaton, &joined.set, state) {
            gathered.add(state)?;
        }
    }
    Ok(gathered)
}

/// The automaton in which a state accepts too where no cycle of its strongly connected component
/// avoids acceptance. It accepts the same lassos.
pub fn accept_more(alloc: Global, automaton: &Auto) -> Result<Auto, Memory>
    ensures { IfOk result (IsMoreAccepting automaton.now) }
{
    let accepting = accepting_more(alloc, automaton)?;
    with_parts(alloc, automaton, automaton.transitions(), &accepting)
}
