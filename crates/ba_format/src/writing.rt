//! Writing the text of an automaton.

ghost use Rattle.std.specs.Prelude.{◌≡◌, ◌<◌, ◌≤◌, ◌++◌, length, All, OnOk, IfOk};
ghost use Rattle.std.specs.List.{flat_map};
ghost use Rattle.ba_format.specs.Writing.{name_text, state_text, transition_text, accepting_written, written};

use crate::joining::accepting_states;
use crate::texts::Texts;
use auto_core::{Auto, List, Memory, Trans, append};
use std::alloc::Global;

/// Appends the name of a state.
fn append_name(alloc: Global, out: &mut List<u8>, state: u32) -> Result<(), Memory>
    ensures { OnOk result (out.new ≡ out.old ++ name_text state) }
{
    let name = format!(in alloc; "[{state}]")?;
    append(out, name.as_bytes())
}

/// Appends the lines of these states.
fn append_states(alloc: Global, out: &mut List<u8>, states: &[u32]) -> Result<(), Memory>
    ensures { OnOk result (out.new ≡ out.old ++ flat_map state_text states.now) }
{
    for state in states {
        append_name(alloc, out, *state)?;
        append(out, b"\n")?;
    }
    Ok(())
}

/// Appends the line of a transition.
fn append_transition(
    alloc: Global,
    out: &mut List<u8>,
    step: Trans,
    labels: &Texts,
) -> Result<(), Memory>
    requires { step.label < length labels.now }
    ensures { OnOk result (out.new ≡ out.old ++ transition_text labels.now step) }
{
    append(out, labels.get(step.label))?;
    append(out, b",")?;
    append_name(alloc, out, step.source)?;
    append(out, b"->")?;
    append_name(alloc, out, step.target)?;
    append(out, b"\n")
}

/// Appends the lines of these transitions.
fn append_transitions(
    alloc: Global,
    out: &mut List<u8>,
    steps: &[Trans],
    labels: &Texts,
) -> Result<(), Memory>
    requires { All (λ t. t.label < length labels.now) steps.now }
    ensures { OnOk result (out.new ≡ out.old ++ flat_map (transition_text labels.now) steps.now) }
{
    for step in steps {
        append_transition(alloc, out, *step, labels)?;
    }
    Ok(())
}

/// The text of an automaton: its initial state, its transitions, and its accepting states, or one
/// state more if it has none.
pub fn write(alloc: Global, auto: &Auto, labels: &Texts) -> Result<List<u8>, Memory>
    requires { auto.now.labels ≤ length labels.now }
    ensures { IfOk result (λ text. text ≡ written auto.now labels.now) }
{
    let mut out = List::new(alloc);
    append_states(alloc, &mut out, &[auto.initial()])?;
    append_transitions(alloc, &mut out, auto.transitions(), labels)?;
    let accepting = accepting_states(alloc, auto)?;
    if accepting.is_empty() {
        append_states(alloc, &mut out, &[auto.states()])?;
    } else {
        append_states(alloc, &mut out, &accepting)?;
    }
    Ok(out)
}
