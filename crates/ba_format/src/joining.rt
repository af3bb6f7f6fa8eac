//! Two read automata over common labels.

ghost use Rattle.std.specs.Prelude.{◌≡◌, ◌+◌, ◌^◌, ◌<◌, true, length, map, slice_index, OnOk, IfOk, All};
ghost use Rattle.std.specs.List.{list_any};
ghost use Rattle.auto_core.specs.Automaton.{trans};
ghost use Rattle.ba_format.specs.Sight.{same_text, place_in, AreDifferent};
ghost use Rattle.ba_format.specs.Joining.{joined_labels, IsRelabelled, IsJoined};

use crate::parts::{Joined, Named};
use crate::texts::Texts;
use auto_core::{Auto, Memory, Trans, of_parts};
use std::alloc::Global;

/// Appends those texts that aren't there yet, in order.
fn add_new(joined: &mut Texts, texts: &Texts) -> Result<(), Memory>
    requires { length joined.old + length texts.now < 2 ^ 32 }
    ensures { OnOk result (joined.new ≡ joined_labels joined.old texts.now) }
{
    for at in 0..texts.count() {
        let text = texts.get(at);
        if !joined.has(text) {
            joined.add(text)?;
        }
    }
    Ok(())
}

/// The number of each label in the joined list, which has them all.
fn numbers_in(alloc: Global, labels: &Texts, joined: &Texts) -> Result<Vec<u32>, Memory>
    requires { All (λ label. list_any (same_text label) joined.now ≡ true) labels.now }
    ensures numbers { IfOk
        result (λ numbers. numbers.items ≡ map (place_in same_text joined.now) labels.now) }
    ensures different { AreDifferent labels.now }
{
    let mut numbers = Vec::new(alloc);
    for at in 0..labels.count() {
        match joined.find(labels.get(at)) {
            Some(number) => numbers.push(number)?,
            None => unreachable!(),
        }
    }
    Ok(numbers)
}

/// The transitions with these numbers for their labels.
fn with_numbers(alloc: Global, transitions: &[Trans], numbers: &[u32]) -> Result<Vec<Trans>, Memory>
    requires { All (λ t. t.label < length numbers.now) transitions.now }
    ensures { IfOk
        result (λ done.
        done.items ≡ map (λ t. trans t.source (slice_index numbers.now t.label) t.target)
        transitions.now) }
{
    let mut done = Vec::new(alloc);
    for step in transitions {
        done.push(Trans {
            source: step.source,
            label: numbers[step.label as usize],
            target: step.target,
        })?;
    }
    Ok(done)
}

/// The accepting states, ascending.
pub(crate) fn accepting_states(alloc: Global, auto: &Auto) -> Result<Vec<u32>, Memory>
    ensures { IfOk result (λ states. states.items ≡ auto.now.accepting) }
{
    let mut states = Vec::new(alloc);
    for state in 0..auto.states() {
        if auto.accepting(state) {
            states.push(state)?;
        }
    }
    Ok(states)
}

/// The automaton with its labels numbered as in the joined list, which has them all.
fn relabelled(alloc: Global, auto: &Auto, labels: &Texts, joined: &Texts) -> Result<Auto, Memory>
    requires count { auto.now.labels ≡ length labels.now }
    requires found { All (λ label. list_any (same_text label) joined.now ≡ true) labels.now }
    ensures { IfOk result (IsRelabelled auto.now labels.now joined.now) }
{
    let numbers = numbers_in(alloc, labels, joined)?;
    let transitions = with_numbers(alloc, auto.transitions(), &numbers)?;
    let accepting = accepting_states(alloc, auto)?;
    of_parts(
        alloc,
        auto.states(),
        joined.count(),
        auto.initial(),
        &transitions,
        &accepting,
    )
}

/// Both automata over the first's labels and then those of the second that the first does not have.
pub fn join(alloc: Global, first: &Named, second: &Named) -> Result<Joined, Memory>
    requires first_labels { first.now.auto.labels ≡ length first.now.labels }
    requires second_labels { second.now.auto.labels ≡ length second.now.labels }
    requires room { length first.now.labels + length second.now.labels < 2 ^ 32 }
    ensures { IfOk result (IsJoined first.now second.now) }
{
    let mut labels = Texts::new(alloc);
    add_new(&mut labels, &first.labels)?;
    add_new(&mut labels, &second.labels)?;
    Ok(Joined {
        first: relabelled(alloc, &first.auto, &first.labels, &labels)?,
        second: relabelled(alloc, &second.auto, &second.labels, &labels)?,
        labels,
    })
}
