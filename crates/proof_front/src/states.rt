//! Classes of states, as a proof gives them, and which of them accept.

ghost use Rattle.std.specs.Prelude.{◌≡◌, ◌↔◌, ℕ, true, IfOk, IsTrue};
ghost use Rattle.auto_core.specs.Automaton.{IsAccepting};
ghost use Rattle.cert_value.specs.WellFormed.{ascend};
ghost use Rattle.log_check.specs.Parts.{AreStates};
ghost use Rattle.proof_front.specs.Stages.{TellsStage};
ghost use Rattle.proof_front.specs.Front.{AcceptsJustIn, mapped, accepting_classes};

use auto_core::{Auto, Memory, Mode, of_parts};
use log_check::{CheckFault, Refusal, are_states, classes_for};
use quotient::merge;
use std::alloc::Global;
use useful_states::trim;

/// The automaton whose states are the classes of the map.
pub(crate) fn mapped(
    alloc: Global,
    automaton: &Auto,
    map: &[u32],
    item: u32,
) -> Result<Auto, CheckFault>
    ensures { TellsStage (mapped automaton.now map.now item) result }
{
    let Some(classes) = classes_for(alloc, automaton, map)? else {
        return Err(CheckFault::Refused(Refusal { rule: 3, item }));
    };
    Ok(merge(alloc, automaton, &classes)?)
}

/// The automaton, but for what accepts: just these states.
fn accepting_just(alloc: Global, automaton: &Auto, states: &[u32]) -> Result<Auto, Memory>
    requires states { AreStates automaton.now states.now }
    requires ascending { ascend states.now ≡ true }
    ensures { IfOk result (AcceptsJustIn automaton.now states.now) }
{
    of_parts(
        alloc,
        automaton.states(),
        automaton.labels(),
        automaton.initial(),
        automaton.transitions(),
        states,
    )
}

/// Tells whether each state that accepts in the one automaton accepts in the other.
fn still_accept(automaton: &Auto, other: &Auto) -> bool
    requires { other.now.states ≡ automaton.now.states }
    ensures { IsTrue result
        ↔ ((q : ℕ) → IsAccepting automaton.now q → IsAccepting other.now q) }
{
    for state in 0..automaton.states() {
        if automaton.accepting(state) && !other.accepting(state) {
            return false;
        }
    }
    true
}

/// The automaton, trimmed, where just these states accept, among which is each that accepts.
pub(crate) fn accepting_classes(
    alloc: Global,
    automaton: &Auto,
    states: &[u32],
    item: u32,
) -> Result<Auto, CheckFault>
    requires { ascend states.now ≡ true }
    ensures { TellsStage (accepting_classes automaton.now states.now item) result }
{
    if !are_states(automaton, states) {
        return Err(CheckFault::Refused(Refusal { rule: 1, item }));
    }
    let whole = accepting_just(alloc, automaton, states)?;
    if !still_accept(automaton, &whole) {
        return Err(CheckFault::Refused(Refusal { rule: 22, item }));
    }
    Ok(trim(alloc, &whole, Mode::Buchi)?)
}
