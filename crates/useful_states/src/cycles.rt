//! Which states lie on a cycle: those with a move within their strongly connected component.

ghost use Rattle.std.specs.Prelude.{◌≡◌, ◌<◌, ◌↔◌, IfOk, IsTrue};
ghost use Rattle.auto_core.specs.Useful.{IsOnCycle};
ghost use Rattle.useful_states.specs.Cycles.{AreSpans, AreTargets, AreComponentNumbers};

use auto_core::{Auto, Memory};
use std::alloc::Global;
use strong_components::components_of;

/// Where the transitions of each state start, and behind them where the last ones end.
fn starts_of(alloc: Global, automaton: &Auto) -> Result<Vec<usize>, Memory>
    ensures { IfOk result (λ starts. AreSpans automaton.now starts.items) }
{
    let mut starts = Vec::new(alloc);
    starts.push(0)?;
    for state in 0..automaton.states() {
        starts.push(automaton.outgoing(state).end as usize)?;
    }
    Ok(starts)
}

/// The targets of the transitions.
fn targets_of(alloc: Global, automaton: &Auto) -> Result<Vec<u32>, Memory>
    ensures { IfOk result (λ targets. AreTargets automaton.now targets.items) }
{
    let transitions = automaton.transitions();
    let mut targets = Vec::new(alloc);
    for t in 0..transitions.len() {
        targets.push(transitions[t].target)?;
    }
    Ok(targets)
}

/// The number of each state's component. Refused where there are 2^32 - 1 states, more than a graph
/// has nodes.
pub fn component_numbers(alloc: Global, automaton: &Auto) -> Result<Vec<u32>, Memory>
    ensures { IfOk result (λ numbers. AreComponentNumbers automaton.now numbers.items) }
{
    let states = automaton.states();
    if states == 0xffff_ffff {
        return Err(Memory);
    }
    let starts = starts_of(alloc, automaton)?;
    let targets = targets_of(alloc, automaton)?;
    components_of(alloc, states, &starts, &targets)
}

/// Tells whether the state lies on a cycle.
pub fn is_on_cycle(automaton: &Auto, numbers: &[u32], state: u32) -> bool
    requires numbers { AreComponentNumbers automaton.now numbers.now }
    requires state { state < automaton.now.states }
    ensures { IsTrue result ↔ IsOnCycle automaton.now state }
{
    let span = automaton.outgoing(state);
    let transitions = automaton.transitions();
    for t in span.begin..span.end {
        if numbers[transitions[t as usize].target as usize] == numbers[state as usize] {
            return true;
        }
    }
    false
}
