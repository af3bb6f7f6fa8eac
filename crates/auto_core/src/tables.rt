//! The checks and tables of which `Auto::build` makes an automaton.

ghost use Rattle.std.specs.Prelude.{◌≡◌, ◌+◌, ◌^◌, ◌<◌, ◌≤◌, true, length, IsTrue, IfOk, All, slice_index, slice_index_or, ℕ, Err};
ghost use Rattle.std.specs.Bool.{OnTrue, OnFalse};
ghost use Rattle.std.specs.List.Sorted.{IsPermutation, IsNonDecreasing, IsStrictlyIncreasing};
ghost use Rattle.auto_core.specs.Automaton.{IsBefore, IsAscending, HasRepeat};
ghost use Rattle.auto_core.specs.Build.{HasStateFault, HasStates, HasLabelFault, HasLabels, IsStart, AreStarts, AreFlags, AreArrivals, sources_of, targets_at};
ghost use Rattle.auto_core.specs.Arrivals.{AreNumbered, arrival_numbers};

use crate::automaton::BuildFault;
use crate::parts::{Memory, Trans};
use std::alloc::Global;

/// A transition's number, ordered by the transition's target.
#[derive(Clone, Copy, Debug, PartialEq, Eq, PartialOrd, Ord)]
struct Arrival {
    target: u32,
    number: u32,
}

/// Tells whether a number of these names no state.
pub fn names_no_state(states: u32, initial: u32, transitions: &[Trans], accepting: &[u32]) -> bool
    ensures found { OnTrue result (HasStateFault states initial transitions.now accepting.now) }
    ensures none { OnFalse result (HasStates states initial transitions.now accepting.now) }
{
    if initial >= states {
        return true;
    }
    if transitions
        .iter()
        .any(|t| t.source >= states || t.target >= states)
    {
        return true;
    }
    accepting.iter().any(|q| *q >= states)
}

/// Tells whether a label of these is none.
pub fn names_no_label(labels: u32, transitions: &[Trans]) -> bool
    ensures found { OnTrue result (HasLabelFault labels transitions.now) }
    ensures none { OnFalse result (HasLabels labels transitions.now) }
{
    transitions.iter().any(|t| t.label >= labels)
}

/// Tells whether the first transition stands before the second.
fn is_before(t: Trans, u: Trans) -> bool
    ensures { result ≡ true → IsBefore t u }
{
    t.source < u.source
        || (t.source == u.source
            && (t.label < u.label || (t.label == u.label && t.target < u.target)))
}

/// Tells whether each transition stands before the next.
fn is_ascending(transitions: &[Trans]) -> bool
    ensures { result ≡ true → IsAscending transitions.now }
{
    for i in 1..transitions.len() {
        if !is_before(transitions[i - 1], transitions[i]) {
            return false;
        }
    }
    true
}

/// The transitions in order. `Repeat` where two of them are equal.
pub fn sorted_transitions(alloc: Global, transitions: &[Trans]) -> Result<Vec<Trans>, BuildFault>
    ensures same { IfOk result (λ v. IsPermutation transitions.now v.items) }
    ensures ascending { IfOk result (λ v. IsAscending v.items) }
    ensures repeat { result ≡ Err BuildFault.Repeat → HasRepeat transitions.now }
    ensures no_state_range { ¬ (result ≡ Err BuildFault.StateRange) }
    ensures no_label_range { ¬ (result ≡ Err BuildFault.LabelRange) }
{
    let mut sorted = Vec::from_slice(alloc, transitions).map_err(|_| BuildFault::Memory)?;
    if is_ascending(&sorted) {
        return Ok(sorted);
    }
    sorted.sort().map_err(|_| BuildFault::Memory)?;
    if has_equal_neighbours(&sorted) {
        return Err(BuildFault::Repeat);
    }
    Ok(sorted)
}

fn has_equal_neighbours(transitions: &[Trans]) -> bool
    ensures found { OnTrue result (HasRepeat transitions.now) }
    ensures none { OnFalse result
        ((k : ℕ) (d : _) → k + 1 < length transitions.now
        → ¬ (slice_index_or transitions.now k d ≡ slice_index_or transitions.now (k + 1) d)) }
{
    for i in 1..transitions.len() {
        if transitions[i - 1] == transitions[i] {
            return true;
        }
    }
    false
}

/// The states in order. `Repeat` where two of them are equal.
pub fn sorted_states(alloc: Global, states: &[u32]) -> Result<Vec<u32>, BuildFault>
    ensures same { IfOk result (λ v. IsPermutation states.now v.items) }
    ensures ascending { IfOk result (λ v. IsStrictlyIncreasing v.items) }
    ensures repeat { result ≡ Err BuildFault.Repeat → HasRepeat states.now }
    ensures no_state_range { ¬ (result ≡ Err BuildFault.StateRange) }
    ensures no_label_range { ¬ (result ≡ Err BuildFault.LabelRange) }
{
    let mut sorted = Vec::from_slice(alloc, states).map_err(|_| BuildFault::Memory)?;
    sorted.sort().map_err(|_| BuildFault::Memory)?;
    if has_equal_states(&sorted) {
        return Err(BuildFault::Repeat);
    }
    Ok(sorted)
}

fn has_equal_states(states: &[u32]) -> bool
    ensures found { OnTrue result (HasRepeat states.now) }
    ensures none { OnFalse result
        ((k : ℕ) → k + 1 < length states.now
        → ¬ (slice_index states.now k ≡ slice_index states.now (k + 1))) }
{
    for i in 1..states.len() {
        if states[i - 1] == states[i] {
            return true;
        }
    }
    false
}

/// Where the keys that are not below `p` start, if those before `from` are.
fn start_from(keys: &[u32], from: usize, p: usize) -> usize
    requires rising { IsNonDecreasing keys.now }
    requires within { from ≤ length keys.now }
    requires below { (k : ℕ) → k < from → slice_index keys.now k < p }
    ensures { IsStart keys.now p result }
{
    for k in from..keys.len() {
        if keys[k] as usize >= p {
            return k;
        }
    }
    keys.len()
}

/// For each number up to `count`, where the keys that are not below it start.
pub fn starts_of(alloc: Global, keys: &[u32], count: u32) -> Result<Vec<u32>, Memory>
    requires rising { IsNonDecreasing keys.now }
    requires few { length keys.now < 2 ^ 32 }
    ensures { IfOk result (λ starts. AreStarts keys.now count starts.items) }
{
    let mut starts = Vec::with_capacity(alloc, count as usize + 1)?;
    let mut at = 0;
    for p in 0..count as usize + 1 {
        at = start_from(keys, at, p);
        starts.push(at as u32)?;
    }
    Ok(starts)
}

/// A flag for each state that tells whether it is accepting.
pub fn flags_of(alloc: Global, states: u32, accepting: &[u32]) -> Result<Vec<bool>, Memory>
    requires { All (λ q. q < states) accepting.now }
    ensures { IfOk result (λ flags. AreFlags states accepting.now flags.items) }
{
    let mut flags = vec![in alloc; false; states as usize]?;
    for q in accepting {
        flags[*q as usize] = true;
    }
    Ok(flags)
}

/// The sources of the transitions.
pub fn sources(alloc: Global, transitions: &[Trans]) -> Result<Vec<u32>, Memory>
    ensures { IfOk result (λ v. v.items ≡ sources_of transitions.now) }
{
    let mut sources = Vec::with_capacity(alloc, transitions.len())?;
    for t in transitions {
        sources.push(t.source)?;
    }
    Ok(sources)
}

/// The numbers of the transitions, by target.
pub fn incoming_of(alloc: Global, transitions: &[Trans]) -> Result<Vec<u32>, Memory>
    requires { length transitions.now < 2 ^ 32 }
    ensures { IfOk result (λ v. AreArrivals transitions.now v.items) }
{
    let mut arrivals = arrivals_of(alloc, transitions)?;
    arrivals.sort()?;
    numbers_of(alloc, &arrivals)
}

fn numbers_of(alloc: Global, arrivals: &[Arrival]) -> Result<Vec<u32>, Memory>
    ensures { IfOk result (λ v. v.items ≡ arrival_numbers arrivals.now) }
{
    let mut numbers = Vec::with_capacity(alloc, arrivals.len())?;
    for arrival in arrivals {
        numbers.push(arrival.number)?;
    }
    Ok(numbers)
}

fn arrivals_of(alloc: Global, transitions: &[Trans]) -> Result<Vec<Arrival>, Memory>
    requires { length transitions.now < 2 ^ 32 }
    ensures { IfOk result (λ v. AreNumbered transitions.now v.items) }
{
    let mut arrivals = Vec::with_capacity(alloc, transitions.len())?;
    for i in 0..transitions.len() {
        arrivals.push(Arrival {
            target: transitions[i].target,
            number: i as u32,
        })?;
    }
    Ok(arrivals)
}

/// The targets of the transitions with these numbers.
pub fn targets(alloc: Global, transitions: &[Trans], numbers: &[u32]) -> Result<Vec<u32>, Memory>
    requires { All (λ t. t < length transitions.now) numbers.now }
    ensures { IfOk result (λ v. v.items ≡ targets_at transitions.now numbers.now) }
{
    let mut targets = Vec::with_capacity(alloc, numbers.len())?;
    for t in numbers {
        targets.push(transitions[*t as usize].target)?;
    }
    Ok(targets)
}
