//! The steps of the first log: each is tested by its rules, and carried out.

ghost use Rattle.std.specs.Prelude.{◌≡◌, true};
ghost use Rattle.auto_core.specs.declared.parts.Mode.{Mode};
ghost use Rattle.cert_value.specs.declared.types.FirstStep.{FirstStep};
ghost use Rattle.cert_value.specs.WellFormed.{is_cut, is_first_step};
ghost use Rattle.log_check.specs.FirstLog.{first_rules};
ghost use Rattle.log_check.specs.Follows.{TellsStep};

use crate::closures::{ahead_closure, back_closure};
use crate::cuts::{are_as_good, are_better, is_cut_in, without};
use crate::faults::{CheckFault, Refusal};
use crate::keeping::{keep_listed, lists_useful};
use crate::shapes::{are_states, classes_for};
use auto_core::{Auto, Mode};
use cert_value::{FirstStep, GoneBy, RelBlock};
use quotient::merge;
use std::alloc::Global;

/// Keeps the listed states, among which is each useful one.
fn trim_to(
    alloc: Global,
    mode: Mode,
    automaton: &Auto,
    item: u32,
    kept: &[u32],
) -> Result<Auto, CheckFault>
    ensures { TellsStep FirstStep (first_rules mode) automaton.now item (FirstStep.Trim kept.now)
        result }
{
    if !are_states(automaton, kept) {
        return Err(CheckFault::Refused(Refusal { rule: 1, item }));
    }
    if !lists_useful(alloc, automaton, mode, kept)? {
        return Err(CheckFault::Refused(Refusal { rule: 2, item }));
    }
    Ok(keep_listed(alloc, automaton, kept)?)
}

/// Makes the states of each class one.
fn merge_by(alloc: Global, automaton: &Auto, item: u32, numbers: &[u32]) -> Result<Auto, CheckFault>
    ensures { (mode : Mode)
        → TellsStep FirstStep (first_rules mode) automaton.now item (FirstStep.Merge numbers.now)
        result }
{
    let Some(classes) = classes_for(alloc, automaton, numbers)? else {
        return Err(CheckFault::Refused(Refusal { rule: 3, item }));
    };
    Ok(merge(alloc, automaton, &classes)?)
}

/// Takes away the transitions that each have a better one by the pair.
fn cut_by(
    alloc: Global,
    automaton: &Auto,
    item: u32,
    pair: u32,
    look: u32,
    gone: &[GoneBy],
    blocks: &[RelBlock],
) -> Result<Auto, CheckFault>
    requires { is_cut pair look gone.now blocks.now ≡ true }
    ensures { (mode : Mode)
        → TellsStep FirstStep (first_rules mode) automaton.now item
        (FirstStep.Cut pair look gone.now blocks.now) result }
{
    if !is_cut_in(automaton, look, gone, blocks) {
        return Err(CheckFault::Refused(Refusal { rule: 1, item }));
    }
    let Some(back) = back_closure(alloc, automaton, pair, look, blocks)? else {
        return Err(CheckFault::Refused(Refusal { rule: 4, item }));
    };
    let Some(ahead) = ahead_closure(alloc, automaton, pair, look, blocks)? else {
        return Err(CheckFault::Refused(Refusal { rule: 4, item }));
    };
    if !are_as_good(automaton, &back, &ahead, gone) {
        return Err(CheckFault::Refused(Refusal { rule: 7, item }));
    }
    if !are_better(automaton, pair, &back, &ahead, gone) {
        return Err(CheckFault::Refused(Refusal { rule: 8, item }));
    }
    Ok(without(alloc, automaton, gone)?)
}

/// What the step makes of the automaton, if it keeps its rules; otherwise the first of them that it
/// breaks, or want of memory. The step is well-formed.
pub(crate) fn first_step(
    alloc: Global,
    mode: Mode,
    automaton: &Auto,
    item: u32,
    step: &FirstStep,
) -> Result<Auto, CheckFault>
    requires { is_first_step step.now ≡ true }
    ensures { TellsStep FirstStep (first_rules mode) automaton.now item step.now result }
{
    match step {
        FirstStep::Trim { kept } => trim_to(alloc, mode, automaton, item, kept.as_slice()),
        FirstStep::Merge { classes } => merge_by(alloc, automaton, item, classes.as_slice()),
        FirstStep::Cut {
            pair,
            look,
            gone,
            blocks,
        } => cut_by(
            alloc,
            automaton,
            item,
            *pair,
            *look,
            gone.as_slice(),
            blocks.as_slice(),
        ),
    }
}
