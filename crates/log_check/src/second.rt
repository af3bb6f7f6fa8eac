//! The steps of the second log: each is tested by its rules, and carried out.

ghost use Rattle.std.specs.Prelude.{◌≡◌, ◌≤◌, ◌↔◌, [], ◌∷◌, ℕ, true, IfOk, IsTrue};
ghost use Rattle.auto_core.specs.Game.{Holds, Stable};
ghost use Rattle.auto_core.specs.Quotient.{IsQuotient, RelatesMembers};
ghost use Rattle.auto_core.specs.declared.parts.Mode.{Mode};
ghost use Rattle.cert_value.specs.declared.types.Grounds.{Grounds};
ghost use Rattle.cert_value.specs.declared.types.SecondStep.{SecondStep};
ghost use Rattle.cert_value.specs.WellFormed.{ascend, are_grounds, is_rank_block, is_second_step};
ghost use Rattle.log_check.specs.Blocks.{pairs_of};
ghost use Rattle.log_check.specs.Checks.{Tells, rule_at};
ghost use Rattle.log_check.specs.Parts.{AreClassesFor};
ghost use Rattle.log_check.specs.Follows.{TellsStep};
ghost use Rattle.log_check.specs.SecondLog.{IsBlockIn, second_rules};

use crate::blocks::is_block_below;
use crate::closures::{joins_members, stable_closure};
use crate::cuts::cut_listed;
use crate::faults::{CheckFault, Refusal};
use crate::keeping::keep_listed;
use crate::rankings::{is_rank_block_below, ranking_of};
use crate::shapes::{are_states, are_transitions, classes_for, is_look};
use auto_core::Auto;
use cert_value::{Grounds, RankBlock, RelBlock, SecondStep};
use look_round::{Backward, Forward, Side};
use quotient::merge;
use std::alloc::Global;

/// Keeps the listed states.
fn trim_to(alloc: Global, automaton: &Auto, item: u32, kept: &[u32]) -> Result<Auto, CheckFault>
    ensures { TellsStep SecondStep second_rules automaton.now item (SecondStep.Trim kept.now)
        result }
{
    if !are_states(automaton, kept) {
        return Err(CheckFault::Refused(Refusal { rule: 1, item }));
    }
    Ok(keep_listed(alloc, automaton, kept)?)
}

/// Tells whether what the grounds name is there.
fn is_block_in(automaton: &Auto, look: u32, block: &RelBlock) -> bool
    ensures { IsTrue result ↔ IsBlockIn automaton.now look block.now }
{
    is_look(look) && is_block_below(automaton.states(), block)
}

/// Makes the states of each class one, which a relation that is stable on the side relates.
fn merge_by_side<S: Side>(
    alloc: Global,
    side: &S,
    automaton: &Auto,
    item: u32,
    look: u32,
    block: &RelBlock,
    numbers: &[u32],
) -> Result<Auto, CheckFault>
    ensures tells { Tells
        (rule_at 1 item (IsBlockIn automaton.now look block.now)
        ∷ rule_at 3 item (AreClassesFor automaton.now numbers.now)
        ∷ rule_at 4 item (Stable (S.goes side.now automaton.now) (S.goes side.now automaton.now) (S.matches side.now automaton.now) look (Holds (pairs_of block.now)))
        ∷ rule_at 6 item (RelatesMembers automaton.now numbers.now (pairs_of block.now))
        ∷ []) result }
    ensures leads { IfOk result (IsQuotient automaton.now numbers.now) }
{
    if !is_block_in(automaton, look, block) {
        return Err(CheckFault::Refused(Refusal { rule: 1, item }));
    }
    let Some(classes) = classes_for(alloc, automaton, numbers)? else {
        return Err(CheckFault::Refused(Refusal { rule: 3, item }));
    };
    let Some(rel) = stable_closure(alloc, side, automaton, look, block)? else {
        return Err(CheckFault::Refused(Refusal { rule: 4, item }));
    };
    if !joins_members(&rel, &classes) {
        return Err(CheckFault::Refused(Refusal { rule: 6, item }));
    }
    Ok(merge(alloc, automaton, &classes)?)
}

/// Makes the states of each class one, which the state relation of a delayed relation relates.
fn merge_delayed(
    alloc: Global,
    automaton: &Auto,
    item: u32,
    letters: u32,
    ranks: &RankBlock,
    numbers: &[u32],
) -> Result<Auto, CheckFault>
    requires letters_from { 1 ≤ letters }
    requires letters_upto { letters ≤ 4 }
    requires formed { is_rank_block letters ranks.now ≡ true }
    ensures { TellsStep SecondStep second_rules automaton.now item
        (SecondStep.Merge (Grounds.Delayed letters ranks.now) numbers.now) result }
{
    if !is_rank_block_below(automaton, ranks) {
        return Err(CheckFault::Refused(Refusal { rule: 1, item }));
    }
    let Some(classes) = classes_for(alloc, automaton, numbers)? else {
        return Err(CheckFault::Refused(Refusal { rule: 3, item }));
    };
    let ranking = ranking_of(alloc, automaton, letters, ranks)?;
    if !delayed_sim::holds(automaton, &ranking) {
        return Err(CheckFault::Refused(Refusal { rule: 5, item }));
    }
    let mut rel = ranking.relation(alloc)?;
    rel.close();
    if !joins_members(&rel, &classes) {
        return Err(CheckFault::Refused(Refusal { rule: 6, item }));
    }
    Ok(merge(alloc, automaton, &classes)?)
}

/// Makes the states of each class one on these grounds.
fn merge_by(
    alloc: Global,
    automaton: &Auto,
    item: u32,
    by: &Grounds,
    numbers: &[u32],
) -> Result<Auto, CheckFault>
    requires { (version : ℕ) × (mode : Mode) × (are_grounds version mode by.now ≡ true) }
    ensures { TellsStep SecondStep second_rules automaton.now item
        (SecondStep.Merge by.now numbers.now) result }
{
    match by {
        Grounds::Forward { look, rel } => {
            merge_by_side(alloc, &Forward, automaton, item, *look, rel, numbers)
        }
        Grounds::Backward { look, rel } => {
            merge_by_side(alloc, &Backward, automaton, item, *look, rel, numbers)
        }
        Grounds::Delayed { letters, ranks } => {
            merge_delayed(alloc, automaton, item, *letters, ranks, numbers)
        }
    }
}

/// Takes the listed transitions away.
fn cut_to(alloc: Global, automaton: &Auto, item: u32, gone: &[u32]) -> Result<Auto, CheckFault>
    requires { ascend gone.now ≡ true }
    ensures { TellsStep SecondStep second_rules automaton.now item (SecondStep.Cut gone.now)
        result }
{
    if !are_transitions(automaton, gone) {
        return Err(CheckFault::Refused(Refusal { rule: 1, item }));
    }
    Ok(cut_listed(alloc, automaton, gone)?)
}

/// What the step makes of the automaton, if it keeps its rules; otherwise the first of them that it
/// breaks, or want of memory. The step is well-formed.
pub(crate) fn second_step(
    alloc: Global,
    automaton: &Auto,
    item: u32,
    step: &SecondStep,
) -> Result<Auto, CheckFault>
    requires { (version : ℕ) × (mode : Mode) × (is_second_step version mode step.now ≡ true) }
    ensures { TellsStep SecondStep second_rules automaton.now item step.now result }
{
    match step {
        SecondStep::Trim { kept } => trim_to(alloc, automaton, item, kept.as_slice()),
        SecondStep::Merge { by, classes } => {
            merge_by(alloc, automaton, item, by, classes.as_slice())
        }
        SecondStep::Cut { gone } => cut_to(alloc, automaton, item, gone.as_slice()),
    }
}
