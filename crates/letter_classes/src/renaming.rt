//! The automaton over the classes of letters.

ghost use Rattle.std.specs.Prelude.{◌≡◌, ◌≤◌, ◌↔◌, ℕ, length, map, filter, Contains, IfOk};
ghost use Rattle.std.specs.List.{range_with_len};
ghost use Rattle.auto_core.specs.Automaton.{HasRepeat, is_accepting};
ghost use Rattle.auto_core.specs.declared.parts.Trans.{Trans};
ghost use Rattle.letter_classes.specs.Columns.{lettered};
ghost use Rattle.map_laws.specs.Maps.{IsRenamed};

use crate::classes::LetterClasses;
use auto_core::{Auto, Memory, Trans, of_parts};
use std::alloc::Global;

/// The transitions with the classes of their letters, one for each of them.
fn lettered(alloc: Global, automaton: &Auto, classes: &LetterClasses) -> Result<Vec<Trans>, Memory>
    requires { length classes.now ≡ automaton.now.labels }
    ensures { IfOk result (λ v. v.items ≡ map (lettered classes.now) automaton.now.transitions) }
{
    let mut made = Vec::new(alloc);
    let transitions = automaton.transitions();
    for at in 0..transitions.len() {
        let step = transitions[at];
        made.push(Trans {
            source: step.source,
            label: classes.class(step.label),
            target: step.target,
        })?;
    }
    Ok(made)
}

/// The transitions of the list, each once.
fn distinct(list: Vec<Trans>) -> Result<Vec<Trans>, Memory>
    ensures once { IfOk result (λ v. HasRepeat v.items → ⊥) }
    ensures same { IfOk result (λ v. (t : Trans) → Contains v.items t ↔ Contains list.items t) }
    ensures few { IfOk result (λ v. length v.items ≤ length list.items) }
{
    let mut list = list;
    list.sort()?;
    list.dedup();
    Ok(list)
}

/// The accepting states, ascending.
fn accepting_states(alloc: Global, automaton: &Auto) -> Result<Vec<u32>, Memory>
    ensures { IfOk
        result (λ v.
        v.items ≡ filter (is_accepting automaton.now) (range_with_len 0 automaton.now.states)) }
{
    let mut made = Vec::new(alloc);
    for state in 0..automaton.states() {
        if automaton.accepting(state) {
            made.push(state)?;
        }
    }
    Ok(made)
}

/// The automaton over the classes of letters: a transition for each transition, by the class of its
/// letter.
pub fn renamed(alloc: Global, automaton: &Auto, classes: &LetterClasses) -> Result<Auto, Memory>
    requires { length classes.now ≡ automaton.now.labels }
    ensures { IfOk result (IsRenamed automaton.now classes.now) }
{
    let states = automaton.states();
    let count = classes.count() as u32;
    let transitions = distinct(lettered(alloc, automaton, classes)?)?;
    let accepting = accepting_states(alloc, automaton)?;
    of_parts(
        alloc,
        states,
        count,
        automaton.initial(),
        &transitions,
        &accepting,
    )
}
