//! The useful states: those that are reached from the initial state, among those that reach a goal.

ghost use Rattle.std.specs.Prelude.{◌≡◌, ◌<◌, ◌↔◌, ℕ, Contains, IsTrue, IfOk};
ghost use Rattle.auto_core.specs.Automaton.{IsAccepting};
ghost use Rattle.auto_core.specs.Useful.{Reaches, IsGoal, AreUseful};
ghost use Rattle.auto_core.specs.declared.parts.Mode.TheVariants.{Buchi};
ghost use Rattle.useful_states.specs.Cycles.{AreComponentNumbers};
ghost use Rattle.useful_states.specs.Gathering.{HoldsJust};
ghost use Rattle.useful_states.specs.Goals.{ComesToGoal};

use crate::cycles::{component_numbers, is_on_cycle};
use crate::direction::Direction;
use crate::gathering::Gathered;
use auto_core::{Auto, Memory, Mode, StateSet};
use std::alloc::Global;

/// The accepting states.
fn accepting(alloc: Global, automaton: &Auto) -> Result<Gathered, Memory>
    ensures { IfOk result (HoldsJust automaton.now.states (IsAccepting automaton.now)) }
{
    let mut gathered = Gathered::new(alloc, automaton.states())?;
    for state in 0..automaton.states() {
        if automaton.accepting(state) {
            gathered.add(state)?;
        }
    }
    Ok(gathered)
}

/// Tells whether the state is accepting and lies on a cycle.
fn accepts_again(automaton: &Auto, numbers: &[u32], state: u32) -> bool
    requires numbers { AreComponentNumbers automaton.now numbers.now }
    requires state { state < automaton.now.states }
    ensures { IsTrue result ↔ IsGoal automaton.now Buchi state }
{
    if !automaton.accepting(state) {
        return false;
    }
    is_on_cycle(automaton, numbers, state)
}

/// The accepting states on cycles.
fn accepting_on_cycles(alloc: Global, automaton: &Auto) -> Result<Gathered, Memory>
    ensures { IfOk result (HoldsJust automaton.now.states (IsGoal automaton.now Buchi)) }
{
    let numbers = component_numbers(alloc, automaton)?;
    let mut gathered = Gathered::new(alloc, automaton.states())?;
    for state in 0..automaton.states() {
        if accepts_again(automaton, &numbers, state) {
            gathered.add(state)?;
        }
    }
    Ok(gathered)
}

/// The goals.
fn goals(alloc: Global, automaton: &Auto, mode: Mode) -> Result<Gathered, Memory>
    ensures { IfOk result (HoldsJust automaton.now.states (IsGoal automaton.now mode)) }
{
    match mode {
        Mode::Finite => accepting(alloc, automaton),
        Mode::Buchi => accepting_on_cycles(alloc, automaton),
    }
}

/// The states that reach a goal.
fn before_goals(alloc: Global, automaton: &Auto, mode: Mode) -> Result<Gathered, Memory>
    ensures { IfOk result (HoldsJust automaton.now.states (ComesToGoal automaton.now mode)) }
{
    let mut gathered = goals(alloc, automaton, mode)?;
    gathered.close(automaton, Direction::Backward)?;
    Ok(gathered)
}

/// The states that are reached from the initial state.
fn reached(alloc: Global, automaton: &Auto) -> Result<Gathered, Memory>
    ensures { IfOk result
        (HoldsJust automaton.now.states (Reaches automaton.now automaton.now.initial)) }
{
    let mut gathered = Gathered::new(alloc, automaton.states())?;
    gathered.add(automaton.initial())?;
    gathered.close(automaton, Direction::Forward)?;
    Ok(gathered)
}

/// Tells whether the state is in both sets.
fn has_both(one: &StateSet, other: &StateSet, state: u32) -> bool
    requires one { state < one.now.states }
    requires other { state < other.now.states }
    ensures { IsTrue result ↔ (Contains one.now.members state × Contains other.now.members state) }
{
    one.has(state) && other.has(state)
}

/// The states that are in both sets.
fn in_both(alloc: Global, states: u32, one: &StateSet, other: &StateSet) -> Result<StateSet, Memory>
    requires one { one.now.states ≡ states }
    requires other { other.now.states ≡ states }
    ensures states { IfOk result (λ s. s.states ≡ states) }
    ensures members { IfOk
        result (λ s.
        (q : ℕ) → Contains s.members q
        ↔ ((q < states) × Contains one.now.members q × Contains other.now.members q)) }
{
    let mut set = StateSet::new(alloc, states)?;
    for state in 0..states {
        if has_both(one, other, state) {
            set.add(state);
        }
    }
    Ok(set)
}

/// The useful states: those that are reached from the initial state and reach an accepting state,
/// in Büchi mode one that lies on a cycle.
pub fn useful(alloc: Global, automaton: &Auto, mode: Mode) -> Result<StateSet, Memory>
    ensures states { IfOk result (λ s. s.states ≡ automaton.now.states) }
    ensures members { IfOk result (λ s. AreUseful automaton.now mode s.members) }
{
    let goals = before_goals(alloc, automaton, mode)?;
    let reached = reached(alloc, automaton)?;
    in_both(alloc, automaton.states(), &reached.set, &goals.set)
}
