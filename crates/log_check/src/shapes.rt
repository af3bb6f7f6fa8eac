//! Whether what a step names is there, and whether its classes are in shape.

ghost use Rattle.std.specs.Prelude.{◌≡◌, ◌<◌, ◌↔◌, IfOk, IsTrue, MatchOption};
ghost use Rattle.log_check.specs.Parts.{AreStates, AreTransitions, IsLook, AreClassesFor};

use auto_core::{Auto, Memory};
use quotient::{ClassFault, Classes};
use std::alloc::Global;

/// Tells whether the numbers are those of states.
pub fn are_states(automaton: &Auto, numbers: &[u32]) -> bool
    ensures { IsTrue result ↔ AreStates automaton.now numbers.now }
{
    let states = automaton.states();
    numbers.iter().all(|number| *number < states)
}

/// Tells whether the numbers are those of transitions.
pub(crate) fn are_transitions(automaton: &Auto, numbers: &[u32]) -> bool
    ensures { IsTrue result ↔ AreTransitions automaton.now numbers.now }
{
    let count = automaton.transitions().len();
    numbers.iter().all(|number| (*number as usize) < count)
}

/// Tells whether the lookahead is one of 1 to 6.
pub(crate) fn is_look(look: u32) -> bool
    ensures { IsTrue result ↔ IsLook look }
{
    1 <= look && look <= 6
}

/// The classes with these numbers; None where there is not one for each state, or they are not in
/// the order in which they appear.
pub fn classes_for(
    alloc: Global,
    automaton: &Auto,
    numbers: &[u32],
) -> Result<Option<Classes>, Memory>
    ensures { IfOk result (λ found. MatchOption found
        (AreClassesFor automaton.now numbers.now → ⊥)
        (λ classes. (classes ≡ numbers.now) × AreClassesFor automaton.now numbers.now)) }
{
    if numbers.len() != automaton.states() as usize {
        return Ok(None);
    }
    match Classes::build(alloc, numbers) {
        Ok(classes) => Ok(Some(classes)),
        Err(ClassFault::Shape) => Ok(None),
        Err(ClassFault::Memory) => Err(Memory),
    }
}
