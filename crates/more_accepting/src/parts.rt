//! Automata with some of the moves of another.

ghost use Rattle.std.specs.Prelude.{◌≡◌, ◌<◌, filter, IfOk};
ghost use Rattle.useful_states.specs.Cycles.{AreComponentNumbers};
ghost use Rattle.useful_states.specs.Gathering.{ListsMembers};
ghost use Rattle.more_accepting.specs.Making.{ArePart, HasParts, is_beside, is_inside, IsBeside, IsInside};

use auto_core::{Auto, Memory, Trans, of_parts};
use std::alloc::Global;
use useful_states::{Gathered, component_numbers};

/// The automaton with these transitions of it, and these accepting states.
pub(crate) fn with_parts(
    alloc: Global,
    automaton: &Auto,
    transitions: &[Trans],
    accepting: &Gathered,
) -> Result<Auto, Memory>
    requires transitions { ArePart automaton.now transitions.now }
    requires listed { ListsMembers accepting.now }
    requires states { accepting.now.set.states ≡ automaton.now.states }
    ensures { IfOk result (HasParts automaton.now transitions.now accepting.now.set.members) }
{
    of_parts(
        alloc,
        automaton.states(),
        automaton.labels(),
        automaton.initial(),
        transitions,
        accepting.list.as_slice(),
    )
}

/// Tells whether neither end of the transition accepts.
fn is_beside(automaton: &Auto, step: Trans) -> bool
    requires source { step.source < automaton.now.states }
    requires target { step.target < automaton.now.states }
    ensures { result ≡ is_beside automaton.now step }
{
    !automaton.accepting(step.source) && !automaton.accepting(step.target)
}

/// The transitions between states that do not accept.
fn moves_beside(alloc: Global, automaton: &Auto) -> Result<Vec<Trans>, Memory>
    ensures { IfOk
        result (λ v. v.items ≡ filter (is_beside automaton.now) automaton.now.transitions) }
{
    let mut made = Vec::new(alloc);
    let transitions = automaton.transitions();
    for at in 0..transitions.len() {
        let step = transitions[at];
        if is_beside(automaton, step) {
            made.push(step)?;
        }
    }
    Ok(made)
}

/// The automaton of the moves between states that do not accept.
pub(crate) fn beside(alloc: Global, automaton: &Auto) -> Result<Auto, Memory>
    ensures { IfOk result (IsBeside automaton.now) }
{
    let moves = moves_beside(alloc, automaton)?;
    let none = Gathered::new(alloc, automaton.states())?;
    with_parts(alloc, automaton, &moves, &none)
}

/// Tells whether both ends of the transition have the same number.
fn is_inside(automaton: &Auto, numbers: &[u32], step: Trans) -> bool
    requires numbers { AreComponentNumbers automaton.now numbers.now }
    requires source { step.source < automaton.now.states }
    requires target { step.target < automaton.now.states }
    ensures { result ≡ is_inside numbers.now step }
{
    numbers[step.source as usize] == numbers[step.target as usize]
}

/// The transitions between states with the same number.
fn moves_inside(alloc: Global, automaton: &Auto, numbers: &[u32]) -> Result<Vec<Trans>, Memory>
    requires { AreComponentNumbers automaton.now numbers.now }
    ensures { IfOk
        result (λ v. v.items ≡ filter (is_inside numbers.now) automaton.now.transitions) }
{
    let mut made = Vec::new(alloc);
    let transitions = automaton.transitions();
    for at in 0..transitions.len() {
        let step = transitions[at];
        if is_inside(automaton, numbers, step) {
            made.push(step)?;
        }
    }
    Ok(made)
}

/// The automaton of the moves within components.
pub(crate) fn inside(alloc: Global, automaton: &Auto) -> Result<Auto, Memory>
    ensures { IfOk result (IsInside automaton.now) }
{
    let numbers = component_numbers(alloc, automaton)?;
    let moves = moves_inside(alloc, automaton, &numbers)?;
    let none = Gathered::new(alloc, automaton.states())?;
    with_parts(alloc, automaton, &moves, &none)
}
