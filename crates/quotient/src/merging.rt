//! The automaton whose states are the classes.

ghost use Rattle.std.specs.Prelude.{◌≡◌, ◌<◌, ◌≤◌, ◌↔◌, ℕ, length, map, filter, Contains, IfOk};
ghost use Rattle.std.specs.List.{range_with_len};
ghost use Rattle.auto_core.specs.Automaton.{HasRepeat, is_accepting};
ghost use Rattle.auto_core.specs.declared.parts.Trans.{Trans};
ghost use Rattle.auto_core.specs.Quotient.{class_of, IsQuotient};
ghost use Rattle.quotient.specs.Images.{image};

use crate::classes::Classes;
use auto_core::{Auto, Memory, Trans, of_parts};
use std::alloc::Global;

/// The images of the transitions, one for each of them.
fn images(alloc: Global, automaton: &Auto, classes: &Classes) -> Result<Vec<Trans>, Memory>
    requires { length classes.now ≡ automaton.now.states }
    ensures { IfOk result (λ v. v.items ≡ map (image classes.now) automaton.now.transitions) }
{
    let mut made = Vec::new(alloc);
    let transitions = automaton.transitions();
    for at in 0..transitions.len() {
        let step = transitions[at];
        made.push(Trans {
            source: classes.class(step.source),
            label: step.label,
            target: classes.class(step.target),
        })?;
    }
    Ok(made)
}

/// The classes of the accepting states, one for each of them.
fn accepting_classes(alloc: Global, automaton: &Auto, classes: &Classes) -> Result<Vec<u32>, Memory>
    requires { length classes.now ≡ automaton.now.states }
    ensures { IfOk
        result (λ v.
        v.items ≡ map (class_of classes.now)
        (filter (is_accepting automaton.now) (range_with_len 0 automaton.now.states))) }
{
    let mut made = Vec::new(alloc);
    for state in 0..automaton.states() {
        if automaton.accepting(state) {
            made.push(classes.class(state))?;
        }
    }
    Ok(made)
}

/// The transitions of the list, each once.
fn distinct(list: Vec<Trans>) -> Result<Vec<Trans>, Memory>
    ensures once { IfOk result (λ v. HasRepeat v.items → ⊥) }
    ensures same { IfOk result (λ v. (t : Trans) → Contains v.items t ↔ Contains list.items t) }
    ensures few { IfOk result (λ v. length v.items ≤ length list.items) }
{
    let mut list = list;
    list.sort()?;
    list.dedup();
    Ok(list)
}

/// The numbers of the list, each once.
fn distinct_numbers(list: Vec<u32>) -> Result<Vec<u32>, Memory>
    ensures once { IfOk result (λ v. HasRepeat v.items → ⊥) }
    ensures same { IfOk result (λ v. (q : ℕ) → Contains v.items q ↔ Contains list.items q) }
{
    let mut list = list;
    list.sort()?;
    list.dedup();
    Ok(list)
}

/// The automaton whose states are the classes: its transitions are the images of the transitions,
/// and a class is accepting if a member is.
pub fn merge(alloc: Global, automaton: &Auto, classes: &Classes) -> Result<Auto, Memory>
    requires { length classes.now ≡ automaton.now.states }
    ensures { IfOk result (IsQuotient automaton.now classes.now) }
{
    let labels = automaton.labels();
    let initial = classes.class(automaton.initial());
    let count = classes.count() as u32;
    let transitions = distinct(images(alloc, automaton, classes)?)?;
    let accepting = distinct_numbers(accepting_classes(alloc, automaton, classes)?)?;
    of_parts(alloc, count, labels, initial, &transitions, &accepting)
}
