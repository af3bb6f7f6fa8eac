//! Automata that keep some states.

ghost use Rattle.std.specs.Prelude.{◌≡◌, ◌+◌, ◌^◌, ◌<◌, ◌≤◌, ◌&&◌, IfOk, if◌then◌else◌};
ghost use Rattle.auto_core.specs.Automaton.{is_accepting};
ghost use Rattle.auto_core.specs.Useful.{stays, IsKeptPart, IsTrimmed};
ghost use Rattle.useful_states.specs.KeptParts.{has, joins, AreNumbers, kept_transitions, kept_accepting};

use crate::searching::useful;
use auto_core::{Auto, Memory, Mode, StateSet, Trans, of_parts};
use std::alloc::Global;

/// One more than the count if the state stays, else the count.
fn counted(automaton: &Auto, kept: &StateSet, state: u32, count: u32) -> u32
    requires equal { kept.now.states ≡ automaton.now.states }
    requires is_state { state < automaton.now.states }
    requires states_fit { automaton.now.states < 2 ^ 32 }
    requires few { count ≤ state }
    ensures { result ≡ count + (if stays automaton.now kept.now.members state then 1 else 0) }
{
    if kept.has(state) || state == automaton.initial() {
        count + 1
    } else {
        count
    }
}

/// The new number of each state, and behind them the number of states that stay.
fn new_numbers(alloc: Global, automaton: &Auto, kept: &StateSet) -> Result<Vec<u32>, Memory>
    requires { kept.now.states ≡ automaton.now.states }
    ensures { IfOk result (λ v. AreNumbers automaton.now kept.now.members v.items) }
{
    let mut numbers = Vec::new(alloc);
    let mut count = 0;
    for state in 0..automaton.states() {
        numbers.push(count)?;
        count = counted(automaton, kept, state, count);
    }
    numbers.push(count)?;
    Ok(numbers)
}

/// Tells whether both ends of the transition are kept.
fn has_ends(automaton: &Auto, kept: &StateSet, step: Trans) -> bool
    requires equal { kept.now.states ≡ automaton.now.states }
    requires source { step.source < automaton.now.states }
    requires target { step.target < automaton.now.states }
    ensures { result ≡ joins kept.now.members step }
{
    kept.has(step.source) && kept.has(step.target)
}

/// Tells whether the state is kept and accepting.
fn stays_accepting(automaton: &Auto, kept: &StateSet, state: u32) -> bool
    requires equal { kept.now.states ≡ automaton.now.states }
    requires is_state { state < automaton.now.states }
    ensures { result ≡ (has kept.now.members state && is_accepting automaton.now state) }
{
    kept.has(state) && automaton.accepting(state)
}

/// The transitions with both ends kept, under the new numbers.
fn transitions_kept(
    alloc: Global,
    automaton: &Auto,
    kept: &StateSet,
    numbers: &[u32],
) -> Result<Vec<Trans>, Memory>
    requires equal { kept.now.states ≡ automaton.now.states }
    requires numbers { AreNumbers automaton.now kept.now.members numbers.now }
    ensures { IfOk result (λ v. v.items ≡ kept_transitions automaton.now kept.now.members) }
{
    let mut made = Vec::new(alloc);
    let transitions = automaton.transitions();
    for at in 0..transitions.len() {
        let step = transitions[at];
        if has_ends(automaton, kept, step) {
            made.push(Trans {
                source: numbers[step.source as usize],
                label: step.label,
                target: numbers[step.target as usize],
            })?;
        }
    }
    Ok(made)
}

/// The kept accepting states, under the new numbers.
fn accepting_kept(
    alloc: Global,
    automaton: &Auto,
    kept: &StateSet,
    numbers: &[u32],
) -> Result<Vec<u32>, Memory>
    requires equal { kept.now.states ≡ automaton.now.states }
    requires numbers { AreNumbers automaton.now kept.now.members numbers.now }
    ensures { IfOk result (λ v. v.items ≡ kept_accepting automaton.now kept.now.members) }
{
    let mut made = Vec::new(alloc);
    for state in 0..automaton.states() {
        if stays_accepting(automaton, kept, state) {
            made.push(numbers[state as usize])?;
        }
    }
    Ok(made)
}

/// The automaton of the kept states and the initial one, the transitions with both ends kept, and
/// the kept accepting states. New numbers follow the old ones' order.
pub fn keep(alloc: Global, automaton: &Auto, kept: &StateSet) -> Result<Auto, Memory>
    requires { kept.now.states ≡ automaton.now.states }
    ensures { IfOk result (IsKeptPart automaton.now kept.now.members) }
{
    let numbers = new_numbers(alloc, automaton, kept)?;
    let transitions = transitions_kept(alloc, automaton, kept, &numbers)?;
    let accepting = accepting_kept(alloc, automaton, kept, &numbers)?;
    of_parts(
        alloc,
        numbers[automaton.states() as usize],
        automaton.labels(),
        numbers[automaton.initial() as usize],
        &transitions,
        &accepting,
    )
}

/// The automaton of the useful states and the initial one, which stays even where it is useless:
/// the transitions between useful states, and the useful accepting states.
pub fn trim(alloc: Global, automaton: &Auto, mode: Mode) -> Result<Auto, Memory>
    ensures { IfOk result (IsTrimmed automaton.now mode) }
{
    let kept = useful(alloc, automaton, mode)?;
    keep(alloc, automaton, &kept)
}
