//! The moves of an automaton by their letters.

ghost use Rattle.std.specs.Prelude.{◌≡◌, ◌+◌, ◌<◌, ◌≤◌, ◌↔◌, ℕ, true, false, length, map, IsTrue, IfOk, take};
ghost use Rattle.std.specs.Bool.{OnTrue, OnFalse};
ghost use Rattle.auto_core.specs.Automaton.{Automaton, IsOutgoing};
ghost use Rattle.letter_classes.specs.Columns.{exchanged, IsTurned, AreAlike, AreSpansAlike, HasFirstUnlike};
ghost use Rattle.map_laws.specs.Maps.{HasSameColumns};

use auto_core::{Auto, Memory, Span, Trans, of_parts};
use std::alloc::Global;

/// The transitions with source and letter exchanged, one for each of them.
fn exchanged(alloc: Global, automaton: &Auto) -> Result<Vec<Trans>, Memory>
    ensures { IfOk result (λ v. v.items ≡ map exchanged automaton.now.transitions) }
{
    let mut made = Vec::new(alloc);
    let transitions = automaton.transitions();
    for at in 0..transitions.len() {
        let step = transitions[at];
        made.push(Trans {
            source: step.label,
            label: step.source,
            target: step.target,
        })?;
    }
    Ok(made)
}

/// The greater of the numbers.
fn greater(first: u32, second: u32) -> u32
    ensures first { first ≤ result }
    ensures second { second ≤ result }
    ensures one { (bound : ℕ) → first < bound → second < bound → result < bound }
{
    if first < second { second } else { first }
}

/// The automaton with source and letter of each transition exchanged.
pub fn turned(alloc: Global, automaton: &Auto) -> Result<Auto, Memory>
    ensures { IfOk result (IsTurned automaton.now) }
{
    let states = automaton.states();
    let transitions = exchanged(alloc, automaton)?;
    of_parts(
        alloc,
        greater(automaton.labels(), states),
        states,
        automaton.initial(),
        &transitions,
        &[],
    )
}

/// Tells whether the two transitions have one label and one target.
fn are_alike(turned: &Auto, first: u32, second: u32) -> bool
    requires first { first < length turned.now.transitions }
    requires second { second < length turned.now.transitions }
    ensures { IsTrue result ↔ AreAlike turned.now first second }
{
    let transitions = turned.transitions();
    let one = transitions[first as usize];
    let other = transitions[second as usize];
    one.label == other.label && one.target == other.target
}

/// Tells whether the two spans of the turned automaton's transitions, place by place, have the same
/// labels and targets.
fn are_spans_alike(turned: &Auto, first: Span, second: Span) -> bool
    requires first_range { first.begin ≤ first.end }
    requires first_in { first.end ≤ length turned.now.transitions }
    requires second_range { second.begin ≤ second.end }
    requires second_in { second.end ≤ length turned.now.transitions }
    ensures alike { OnTrue result
        (AreSpansAlike turned.now first.begin first.end second.begin second.end) }
    ensures unlike { OnFalse result
        (HasFirstUnlike turned.now first.begin first.end second.begin second.end) }
{
    for at in 0..first.end - first.begin {
        if at >= second.end - second.begin {
            return false;
        }
        if !are_alike(turned, first.begin + at, second.begin + at) {
            return false;
        }
    }
    second.end - second.begin <= first.end - first.begin
}

/// Tells whether the automaton, which is given turned too, has the same moves by both letters.
pub fn has_same_columns(automaton: &Auto, turned: &Auto, first: u32, second: u32) -> bool
    requires turned { IsTurned automaton.now turned.now }
    requires first { first < automaton.now.labels }
    requires second { second < automaton.now.labels }
    ensures { IsTrue result ↔ HasSameColumns automaton.now first second }
{
    are_spans_alike(turned, turned.outgoing(first), turned.outgoing(second))
}
