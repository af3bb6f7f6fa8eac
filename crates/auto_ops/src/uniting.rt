//! The union of two automata.

ghost use Rattle.std.specs.Prelude.{◌≡◌, ◌+◌, ◌^◌, ◌<◌, ◌≤◌, ◌++◌, length, map, true, false, OnOk, IfOk, Err};
ghost use Rattle.auto_ops.specs.declared.fault.OpFault.{OpFault};
ghost use Rattle.auto_ops.specs.Limits.{IsSmallResult};
ghost use Rattle.auto_ops.specs.Union.{IsUnion, IsUnionTooLarge, second_offset};
ghost use Rattle.auto_ops.specs.UnionParts.{shifted, copied, first_moves, transitions_of_one, union_transitions, accepting_of_one, accepts_at_once, start_if, union_accepting, IsSmallUnion};

use crate::fault::OpFault;
use crate::limits::{MOST_LABELS, MOST_STATES, MOST_TRANSITIONS};
use auto_core::{Auto, Memory, Mode, Trans, of_parts};
use ba_format::Joined;
use std::alloc::Global;

/// The number of transitions that leave the initial state.
fn count_first(automaton: &Auto) -> usize
    ensures count { result ≡ length (first_moves automaton.now) }
    ensures few { result ≤ length automaton.now.transitions }
{
    let initial = automaton.initial();
    let transitions = automaton.transitions();
    let mut count = 0;
    for at in 0..transitions.len() {
        if transitions[at].source == initial {
            count += 1;
        }
    }
    count
}

/// Appends the transitions, with both of their states shifted by the offset.
pub fn add_shifted(made: &mut Vec<Trans>, automaton: &Auto, offset: u32) -> Result<(), Memory>
    requires { offset + automaton.now.states < 2 ^ 32 }
    ensures { OnOk result
        (made.new.items ≡ made.old.items ++ map (shifted offset) automaton.now.transitions) }
{
    let transitions = automaton.transitions();
    for at in 0..transitions.len() {
        let step = transitions[at];
        made.push(Trans {
            source: offset + step.source,
            label: step.label,
            target: offset + step.target,
        })?;
    }
    Ok(())
}

/// Appends the copies of the transitions that leave the initial state; they leave state 0.
fn add_copied(made: &mut Vec<Trans>, automaton: &Auto, offset: u32) -> Result<(), Memory>
    requires { offset + automaton.now.states < 2 ^ 32 }
    ensures { OnOk result
        (made.new.items ≡ made.old.items ++ map (copied offset) (first_moves automaton.now)) }
{
    let initial = automaton.initial();
    let transitions = automaton.transitions();
    for at in 0..transitions.len() {
        let step = transitions[at];
        if step.source == initial {
            made.push(Trans {
                source: 0,
                label: step.label,
                target: offset + step.target,
            })?;
        }
    }
    Ok(())
}

/// Appends the accepting states, shifted by the offset.
pub fn add_accepting(made: &mut Vec<u32>, automaton: &Auto, offset: u32) -> Result<(), Memory>
    requires { offset + automaton.now.states < 2 ^ 32 }
    ensures { OnOk result
        (made.new.items
        ≡ made.old.items ++ accepting_of_one automaton.now offset automaton.now.states) }
{
    for state in 0..automaton.states() {
        if automaton.accepting(state) {
            made.push(offset + state)?;
        }
    }
    Ok(())
}

/// All transitions of the union: the first's, shifted, with its copies, and then the second's.
fn all_transitions(alloc: Global, first: &Auto, second: &Auto) -> Result<Vec<Trans>, Memory>
    requires { second_offset first.now + second.now.states < 2 ^ 32 }
    ensures { IfOk result (λ v. v.items ≡ union_transitions first.now second.now) }
{
    let offset = 1 + first.states();
    let mut made = Vec::new(alloc);
    add_shifted(&mut made, first, 1)?;
    add_copied(&mut made, first, 1)?;
    add_shifted(&mut made, second, offset)?;
    add_copied(&mut made, second, offset)?;
    Ok(made)
}

/// Tells whether one of the initial states is accepting, in finite mode.
fn is_accepting_at_once(first: &Auto, second: &Auto, mode: Mode) -> bool
    ensures { result ≡ accepts_at_once mode first.now second.now }
{
    match mode {
        Mode::Buchi => false,
        Mode::Finite => { first.accepting(first.initial()) || second.accepting(second.initial()) }
    }
}

/// State 0, if the union accepts there, or nothing.
fn accepting_start(
    alloc: Global,
    first: &Auto,
    second: &Auto,
    mode: Mode,
) -> Result<Vec<u32>, Memory>
    ensures { IfOk result (λ v. v.items ≡ start_if (accepts_at_once mode first.now second.now)) }
{
    let mut made = Vec::new(alloc);
    if is_accepting_at_once(first, second, mode) {
        made.push(0)?;
    }
    Ok(made)
}

/// The accepting states of the union.
fn all_accepting(alloc: Global, first: &Auto, second: &Auto, mode: Mode) -> Result<Vec<u32>, Memory>
    requires { second_offset first.now + second.now.states < 2 ^ 32 }
    ensures { IfOk result (λ v. v.items ≡ union_accepting mode first.now second.now) }
{
    let offset = 1 + first.states();
    let mut made = accepting_start(alloc, first, second, mode)?;
    add_accepting(&mut made, first, 1)?;
    add_accepting(&mut made, second, offset)?;
    Ok(made)
}

/// The number of the union's transitions.
fn count_transitions(first: &Auto, second: &Auto) -> usize
    ensures { result ≡ length (union_transitions first.now second.now) }
{
    let of_first = first.transitions().len() + count_first(first);
    let of_second = second.transitions().len() + count_first(second);
    of_first + of_second
}

/// Tells whether the union is larger than a result may be.
fn is_too_large(first: &Auto, second: &Auto) -> bool
    ensures yes { result ≡ true → IsUnionTooLarge first.now second.now }
    ensures no { result ≡ false → IsSmallUnion first.now second.now }
{
    if first.labels() > MOST_LABELS {
        return true;
    }
    if 1 + first.states() as usize + second.states() as usize > MOST_STATES {
        return true;
    }
    count_transitions(first, second) > MOST_TRANSITIONS
}

/// The union: a new initial state 0, then the first's states and the second's, with all their
/// transitions and accepting states, and with copies at state 0 of the transitions that leave
/// either initial state. In finite mode state 0 is accepting where either initial state is.
/// `TooLarge` is the answer where it would have more than 2,048 states, 65,536 transitions or 256
/// labels.
pub fn union(alloc: Global, pair: &Joined, mode: Mode) -> Result<Auto, OpFault>
    requires first_labels { pair.now.first.labels ≡ length pair.now.labels }
    requires second_labels { pair.now.second.labels ≡ length pair.now.labels }
    ensures exact { IfOk result (IsUnion mode pair.now.first pair.now.second) }
    ensures within { IfOk result IsSmallResult }
    ensures not_too_large { IfOk result (λ _. IsUnionTooLarge pair.now.first pair.now.second → ⊥) }
    ensures too_large { result ≡ Err OpFault.TooLarge
        → IsUnionTooLarge pair.now.first pair.now.second }
{
    let first = &pair.first;
    let second = &pair.second;
    if is_too_large(first, second) {
        return Err(OpFault::TooLarge);
    }
    let transitions = all_transitions(alloc, first, second)?;
    let accepting = all_accepting(alloc, first, second, mode)?;
    let states = 1 + first.states() + second.states();
    let built = of_parts(alloc, states, first.labels(), 0, &transitions, &accepting)?;
    Ok(built)
}
