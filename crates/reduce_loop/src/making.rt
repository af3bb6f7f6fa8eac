//! What each kind of step makes of an automaton.

ghost use Rattle.std.specs.Prelude.{◌≡◌, ◌<◌, ◌≤◌, ◌↔◌, ℕ, Contains, IfOk};
ghost use Rattle.std.specs.List.Sorted.{IsStrictlyIncreasing};
ghost use Rattle.auto_core.specs.Delayed.{IsGreatestDelayed, letters_for};
ghost use Rattle.delayed_sim.specs.Rankings.{IsRanking};
ghost use Rattle.reduce_loop.specs.Kinds.{After, kinds_of};
ghost use Rattle.reduce_loop.specs.Known.{AreGreatestOn};
ghost use Rattle.reduce_loop.specs.Logs.{IsStepEntry};

use crate::joining::join_states;
use crate::knowing::{Known, backward, forward};
use crate::pruning::prune;
use crate::steps::{Foresight, Kind, Made, MergeBy, Step};
use auto_core::{Auto, List, Memory, Mode, StateSet};
use delayed_sim::{Delayed, greatest, letters_for};
use std::alloc::Global;
use useful_states::{keep, useful};

/// The members of the set, ascending.
fn members(alloc: Global, set: &StateSet, states: u32) -> Result<List<u32>, Memory>
    requires equal { set.now.states ≡ states }
    requires below { (q : ℕ) → Contains set.now.members q → q < states }
    ensures ascending { IfOk result IsStrictlyIncreasing }
    ensures members { IfOk result (λ made. (q : ℕ) → Contains made q ↔ Contains set.now.members q) }
{
    let mut made = List::new(alloc);
    for state in 0..states {
        if set.has(state) {
            made.push(state)?;
        }
    }
    Ok(made)
}

/// The useful states and the initial one stay.
fn trim(alloc: Global, automaton: &Auto, mode: Mode, sight: Foresight) -> Result<Made, Memory>
    ensures after { IfOk result (λ made. After automaton.now mode sight Kind.Trim made.automaton) }
    ensures entry { IfOk
        result (λ made. IsStepEntry automaton.now mode sight Kind.Trim made.entry) }
{
    let states = automaton.states();
    let set = useful(alloc, automaton, mode)?;
    let kept = members(alloc, &set, states)?;
    let automaton = keep(alloc, automaton, &set)?;
    Ok(Made {
        automaton,
        entry: Step::Trim { kept },
    })
}

/// The states that the greatest forward relation joins become one.
fn merge_forward(
    alloc: Global,
    automaton: &Auto,
    known: &mut Known,
    mode: Mode,
    sight: Foresight,
) -> Result<Made, Memory>
    requires look_from { 1 ≤ sight.look }
    requires look_upto { sight.look ≤ 6 }
    requires known { AreGreatestOn automaton.now sight.look known.old }
    ensures after { IfOk
        result (λ made. After automaton.now mode sight Kind.Forward made.automaton) }
    ensures entry { IfOk
        result (λ made. IsStepEntry automaton.now mode sight Kind.Forward made.entry) }
    ensures known { IfOk result (λ _. AreGreatestOn automaton.now sight.look known.new) }
{
    let rel = forward(alloc, automaton, &mut known.forward, sight.look)?;
    let joined = join_states(alloc, automaton, &rel)?;
    Ok(Made {
        automaton: joined.automaton,
        entry: Step::Merge {
            by: MergeBy::Forward {
                look: sight.look,
                rel,
            },
            classes: joined.classes,
        },
    })
}

/// The states that the greatest backward relation joins become one.
fn merge_backward(
    alloc: Global,
    automaton: &Auto,
    known: &mut Known,
    mode: Mode,
    sight: Foresight,
) -> Result<Made, Memory>
    requires look_from { 1 ≤ sight.look }
    requires look_upto { sight.look ≤ 6 }
    requires known { AreGreatestOn automaton.now sight.look known.old }
    ensures after { IfOk
        result (λ made. After automaton.now mode sight Kind.Backward made.automaton) }
    ensures entry { IfOk
        result (λ made. IsStepEntry automaton.now mode sight Kind.Backward made.entry) }
    ensures known { IfOk result (λ _. AreGreatestOn automaton.now sight.look known.new) }
{
    let rel = backward(alloc, automaton, &mut known.backward, sight.look)?;
    let joined = join_states(alloc, automaton, &rel)?;
    Ok(Made {
        automaton: joined.automaton,
        entry: Step::Merge {
            by: MergeBy::Backward {
                look: sight.look,
                rel,
            },
            classes: joined.classes,
        },
    })
}

/// The greatest delayed relation with as many letters as are announced on the automaton where so
/// many are asked for.
pub fn greatest_delayed(alloc: Global, automaton: &Auto, asked: u32) -> Result<Delayed, Memory>
    requires few { automaton.now.states ≤ 65535 }
    requires letters_from { 1 ≤ asked }
    requires letters_upto { asked ≤ 4 }
    ensures states { IfOk result (λ d. d.states ≡ automaton.now.states) }
    ensures labels { IfOk result (λ d. d.labels ≡ automaton.now.labels) }
    ensures letters { IfOk result (λ d. d.letters ≡ letters_for automaton.now asked) }
    ensures valid { IfOk result IsRanking }
    ensures greatest { IfOk
        result (λ d. IsGreatestDelayed automaton.now (letters_for automaton.now asked) d.triples) }
{
    let letters = letters_for(automaton, asked);
    greatest(alloc, automaton, letters)
}

/// The states that the greatest delayed relation joins become one.
fn merge_delayed(
    alloc: Global,
    automaton: &Auto,
    mode: Mode,
    sight: Foresight,
) -> Result<Made, Memory>
    requires few { automaton.now.states ≤ 65535 }
    requires letters_from { 1 ≤ sight.letters }
    requires letters_upto { sight.letters ≤ 4 }
    ensures after { IfOk
        result (λ made. After automaton.now mode sight Kind.Delayed made.automaton) }
    ensures entry { IfOk
        result (λ made. IsStepEntry automaton.now mode sight Kind.Delayed made.entry) }
{
    let ranks = greatest_delayed(alloc, automaton, sight.letters)?;
    let rel = ranks.relation(alloc)?;
    let joined = join_states(alloc, automaton, &rel)?;
    Ok(Made {
        automaton: joined.automaton,
        entry: Step::Merge {
            by: MergeBy::Delayed { ranks },
            classes: joined.classes,
        },
    })
}

/// What a step of this kind makes, with the entry that tells of it.
pub(crate) fn make(
    alloc: Global,
    automaton: &Auto,
    known: &mut Known,
    kind: Kind,
    mode: Mode,
    sight: Foresight,
) -> Result<Made, Memory>
    requires listed { Contains (kinds_of mode) kind }
    requires few { automaton.now.states ≤ 65535 }
    requires look_from { 1 ≤ sight.look }
    requires look_upto { sight.look ≤ 6 }
    requires letters_from { 1 ≤ sight.letters }
    requires letters_upto { sight.letters ≤ 4 }
    requires known { AreGreatestOn automaton.now sight.look known.old }
    ensures after { IfOk result (λ made. After automaton.now mode sight kind made.automaton) }
    ensures entry { IfOk result (λ made. IsStepEntry automaton.now mode sight kind made.entry) }
    ensures known { IfOk result (λ _. AreGreatestOn automaton.now sight.look known.new) }
{
    match kind {
        Kind::Trim => trim(alloc, automaton, mode, sight),
        Kind::Forward => merge_forward(alloc, automaton, known, mode, sight),
        Kind::Backward => merge_backward(alloc, automaton, known, mode, sight),
        Kind::Delayed => merge_delayed(alloc, automaton, mode, sight),
        Kind::Prune { pair } => prune(alloc, automaton, known, pair, mode, sight),
    }
}
