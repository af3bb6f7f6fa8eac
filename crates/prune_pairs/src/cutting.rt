//! Automata without some of their transitions.

ghost use Rattle.std.specs.Prelude.{◌≡◌, ◌==◌, filter, IfOk};
ghost use Rattle.std.specs.List.{list_any, range_with_len};
ghost use Rattle.std.specs.List.Sorted.{IsStrictlyIncreasing};
ghost use Rattle.auto_core.specs.Automaton.{is_accepting};
ghost use Rattle.auto_core.specs.Pruning.{IsCut};
ghost use Rattle.prune_pairs.specs.Staying.{staying_transitions};

use auto_core::{Auto, Memory, Trans, of_parts};
use std::alloc::Global;

/// Tells whether the ascending list has the number.
fn is_listed(gone: &[u32], t: u32) -> bool
    requires { IsStrictlyIncreasing gone.now }
    ensures { result ≡ list_any (λ x. x == t) gone.now }
{
    gone.binary_search(&t).is_ok()
}

/// The transitions without those that have these numbers.
fn staying(alloc: Global, automaton: &Auto, gone: &[u32]) -> Result<Vec<Trans>, Memory>
    requires { IsStrictlyIncreasing gone.now }
    ensures { IfOk result (λ v. v.items ≡ staying_transitions automaton.now gone.now) }
{
    let mut made = Vec::new(alloc);
    let transitions = automaton.transitions();
    for at in 0..transitions.len() {
        if !is_listed(gone, at as u32) {
            made.push(transitions[at])?;
        }
    }
    Ok(made)
}

/// The accepting states, ascending.
pub fn accepting_states(alloc: Global, automaton: &Auto) -> Result<Vec<u32>, Memory>
    ensures { IfOk
        result (λ v.
        v.items ≡ filter (is_accepting automaton.now) (range_with_len 0 automaton.now.states)) }
{
    let mut made = Vec::new(alloc);
    for state in 0..automaton.states() {
        if automaton.accepting(state) {
            made.push(state)?;
        }
    }
    Ok(made)
}

/// The automaton without the transitions that have these numbers, which ascend.
pub fn cut(alloc: Global, automaton: &Auto, gone: &[u32]) -> Result<Auto, Memory>
    requires { IsStrictlyIncreasing gone.now }
    ensures { IfOk result (IsCut automaton.now gone.now) }
{
    let transitions = staying(alloc, automaton, gone)?;
    let accepting = accepting_states(alloc, automaton)?;
    of_parts(
        alloc,
        automaton.states(),
        automaton.labels(),
        automaton.initial(),
        &transitions,
        &accepting,
    )
}
